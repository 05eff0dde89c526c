//! Calls over files in memory.

use name_map::HashKey;
use stats_commands::{Outcome, quiet_stats_with};
use stats_io::{MemShelf, MemSink, Shelf, Sink};
use std::alloc::Global;
use std::process::Abort;
use std::test::Fail;
use tag_rules::{PatternMaker, RegexMaker};
use test_support::{Played, Wanted, words_of};

/// A file of two increments of one counter.
pub(crate) const TWO_INCS: &[u8] = b"inc root a 3\ninc root a 4\n";

/// What is written of one file without events.
pub(crate) const NO_EVENTS_OUTPUT: &[u8] = b"# last\n# worker 1: 0 accepted, 0 dropped\n";

// Calls `quiet_stats_with` under a key of its own. It has no clauses, so that no test's proof carries those of
// that call.
fn call<K: PatternMaker, F: Shelf, O: Sink, E: Sink>(
    alloc: Global,
    words: &[String],
    maker: &mut K,
    shelf: &mut F,
    out: &mut O,
    err: &mut E,
) -> Outcome {
    quiet_stats_with(alloc, HashKey::of(7), words, maker, shelf, out, err)
}

// What a call over these comes to.
pub(crate) fn play_with(
    alloc: Global,
    words: &str,
    mut maker: RegexMaker,
    mut shelf: MemShelf,
    mut out: MemSink,
    mut err: MemSink,
) -> Result<Played, Fail> {
    let words = words_of(alloc, words)?;
    let outcome = call(alloc, &words, &mut maker, &mut shelf, &mut out, &mut err);
    Ok(Played {
        outcome,
        out,
        err,
        shelf,
    })
}

// The same over that shelf and a maker whose call of that number fails, with an output sink of pieces of that
// length whose push of that number fails.
pub(crate) fn play(
    alloc: Global,
    words: &str,
    shelf: MemShelf,
    failing_pattern: u64,
    piece: usize,
    failing_push: u64,
) -> Result<Played, Fail> {
    let maker = RegexMaker::new(vec![in alloc; failing_pattern]?);
    let out = MemSink::new(alloc, 2000, piece.max(1), vec![in alloc; failing_push]?)?;
    let err = MemSink::new(alloc, 1000, 100, Vec::new(alloc))?;
    play_with(alloc, words, maker, shelf, out, err)
}

// The same without a failing pattern.
pub(crate) fn play_over(
    alloc: Global,
    words: &str,
    shelf: MemShelf,
    piece: usize,
    failing_push: u64,
) -> Result<Played, Fail> {
    play(alloc, words, shelf, 999, piece, failing_push)
}

// The call over that shelf comes to this.
pub(crate) fn assert_call(
    rt: &impl Abort,
    alloc: Global,
    words: &str,
    shelf: MemShelf,
    wanted: Wanted<'_>,
) -> Result<(), Fail> {
    let played = play_over(alloc, words, shelf, 100, 999)?;
    assert!(rt; played.came_to(wanted), "{words}");
    Ok(())
}
