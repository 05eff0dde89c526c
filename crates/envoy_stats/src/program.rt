//! The program's call.
ghost use Rattle.std.specs.Prelude.{map, string_bytes};
ghost use Rattle.stats_commands.specs.World.{world, sight};
ghost use Rattle.envoy_stats.specs.Running.{IsProgramCall};

use crate::asked::{Asked, asked_of};
use crate::load::load;
use crate::run::run;
use command_words::command_of;
use name_map::HashKey;
use stats_commands::{Outcome, give_up, serve_quiet};
use stats_io::{Shelf, Sink};
use std::alloc::Global;
use std::sync::Wait;
use std::thread::Threads;
use tag_rules::PatternMaker;

/// The program of [`envoy_stats`], its tables hashed under this key: what is written and said does not depend on it.
pub fn envoy_stats_with<R: Threads + Wait + Sync, K: PatternMaker, F: Shelf, O: Sink, E: Sink>(
    rt: &R,
    alloc: Global,
    key: HashKey,
    words: &[String],
    maker: &mut K,
    shelf: &mut F,
    out: &mut O,
    err: &mut E,
) -> Outcome
    ensures { IsProgramCall (sight K.memory F.holds F.state F.S.state O.state E.state)
        (world maker.old shelf.old out.old err.old) (world maker.new shelf.new out.new err.new)
        (map string_bytes words.now) result }
{
    let Ok(said) = command_of(alloc, words) else {
        return give_up(err);
    };
    match asked_of(said) {
        Asked::Run(asked) => run(rt, alloc, key, &asked, maker, shelf, out, err),
        Asked::Load(asked) => load(rt, alloc, key, asked, maker, shelf, out, err),
        Asked::Quiet(said) => serve_quiet(alloc, key, said, maker, shelf, out, err),
    }
}

/// The program. `run [--symbols] [--format F] BOOT FILE..` applies the events of 1 to 32 files side by side to one store,
/// a worker a file, with a flusher and a reader beside them, and writes all flushes and readings. `load --run W E` applies
/// scripts that it makes in the same way, under the usual bootstrap, and writes a summary. Every other command starts no
/// thread, and is that of [`stats_commands::quiet_stats_with`], statuses included.
///
/// At every moment of every interleaving, each counter's latched deltas and pending word together are its workers'
/// accepted units, each once; merged bins are those of the turned halves' values inserted directly, each value in one
/// merge; no symbol number is given again while a live name or cache holds it; once recorders have returned, the last
/// flush leaves nothing pending, and the bytes written are that ledger's defined text.
///
/// - At every moment of every interleaving: the rules `Counted` and `Gauged` (`metric_words`), `Locked` (`book_lock`) and
///   `Turned` (`turn_cell`), which each atomic step keeps.
/// - Latched deltas and the pending word: `Counted.pending`, and `DidItsWork.adds` of each worker (`run_ledger`); of the
///   report `Account.units` (`ledger`), by which the deltas of all flushes are the accepted units.
/// - Merged bins, each value in one merge: `FlusherAccounts.halves` (`flusher`); of the report `FitAll` and
///   `Account.values` (`ledger`).
/// - Symbol numbers: `Legal`, by `LegalIsSafe` (`book_state`); a cache gives what its seat holds by the log, `SameHeld`
///   (`thread_cache`).
/// - Nothing pending after the last flush: `Closes.emptied` (`store_closing`); of the report `Account.units` again.
/// - The bytes written: `Runs` (this crate), by `IsReported.written` (`stats_commands`).
///
/// The contract speaks of the end, of the report and its text; what holds at every moment stands in those rules. Tests
/// alone show that threads ran side by side, and that flushes and readings come from the running store.
pub fn envoy_stats<R: Threads + Wait + Sync, K: PatternMaker, F: Shelf, O: Sink, E: Sink>(
    rt: &R,
    alloc: Global,
    words: &[String],
    maker: &mut K,
    shelf: &mut F,
    out: &mut O,
    err: &mut E,
) -> Outcome
    ensures { IsProgramCall (sight K.memory F.holds F.state F.S.state O.state E.state)
        (world maker.old shelf.old out.old err.old) (world maker.new shelf.new out.new err.new)
        (map string_bytes words.now) result }
{
    envoy_stats_with(rt, alloc, HashKey::fixed(), words, maker, shelf, out, err)
}
