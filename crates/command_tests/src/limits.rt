//! Words that are no command, and limits of words, names, lines and files.

use crate::calls::{NO_EVENTS_OUTPUT, TWO_INCS, assert_call, play_over, play_with};
use stat_defs::Verdict;
use stats_io::{MemShelf, MemSink};
use std::alloc::Global;
use std::test::Fail;
use tag_rules::RegexMaker;
use test_support::{Played, Wanted, shelf_of};

// Words that are no command: a list a line, its words parted by spaces.
const NO_COMMANDS: &str =
    "\nreplay\nreplay -\nreplay - \nreplay - -f\nreplay -f f\nreplay f\nreplay - f -f\nrun --format x - f\nrun - f\nreplay --symbols\nreplay --symbols --symbols - f1\nreplay --format prom --format prom - f1\nreplay --format x - f1\nreplay --format - f1\nreplay - f1 --format\nreplay --symbols=x - f1\nreplay --run - f1\nreplay --symbol - f1\n-- replay - f1\ncheck\ncheck -f\ncheck - -\ncheck --symbols -\nbins\nbins 01\nbins 00\nbins +1\nbins -1\nbins 1 x\nbins 1 \nbins 18446744073709551616\nbin 1\nload\nload 1\nload 0 1\nload 33 1\nload 1 0\nload 1 131073\nload --symbols 1 1\nload --run 1 1\n--help\n-h\n--version";

const USAGE: &[u8] =
    b"usage: envoy_stats run|replay [--symbols] [--format statsd|prom|admin] BOOT FILE.. | check BOOT | bins V.. | load [--run] W E\n";

#[test]
fn words_that_are_no_command(rt: HostRuntime) -> Result<(), Fail> {
    let alloc = rt.alloc();
    let wanted = Wanted {
        status: 1,
        reports: false,
        out: b"",
        err: USAGE,
    };
    for words in NO_COMMANDS.split('\n') {
        let shelf = shelf_of(alloc, TWO_INCS, 9)?;
        assert_call(&rt, alloc, words, shelf, wanted)?;
    }
    Ok(())
}

// These words, and so many times the last ones.
fn words_with(alloc: Global, first: &str, last: &str, times: u64) -> Result<String, Fail> {
    let mut words = String::from_str(alloc, first)?;
    for _ in 0..times {
        words.push_str(last)?;
    }
    Ok(words)
}

#[test]
fn as_many_words_as_are_allowed(rt: HostRuntime) -> Result<(), Fail> {
    let alloc = rt.alloc();
    for (first, last, times, status) in [
        ("replay -", " f1", 32, 0),
        ("replay -", " f1", 33, 1),
        ("bins", " 1", 64, 0),
        ("bins", " 1", 65, 1),
    ] {
        let words = words_with(alloc, first, last, times)?;
        let played = play_over(
            alloc,
            words.as_str(),
            shelf_of(alloc, TWO_INCS, 9)?,
            100,
            999,
        )?;
        assert_eq!(rt; played.outcome.status, status);
    }
    Ok(())
}

// The lines `inc root nK 1` for K from 1 to so many.
fn new_names(alloc: Global, count: u64) -> Result<Vec<u8>, Fail> {
    let mut bytes = Vec::new(alloc);
    for k in 0..count {
        let line = format!(in alloc; "inc root n{} 1\n", k.saturating_add(1))?;
        bytes.extend_from_slice(line.as_bytes())?;
    }
    Ok(bytes)
}

// A call over that shelf with a wide output sink.
fn play_wide(alloc: Global, words: &str, shelf: MemShelf) -> Result<Played, Fail> {
    let maker = RegexMaker::new(Vec::new(alloc));
    let out = MemSink::new(alloc, 300_000, 300_000, Vec::new(alloc))?;
    let err = MemSink::new(alloc, 100, 100, Vec::new(alloc))?;
    play_with(alloc, words, maker, shelf, out, err)
}

#[test]
fn one_counter_too_many(rt: HostRuntime) -> Result<(), Fail> {
    let alloc = rt.alloc();
    let shelf = shelf_of(alloc, &new_names(alloc, 16_385)?, 999_999)?;
    let played = play_wide(alloc, "replay - f1", shelf)?;
    assert_eq!(rt; played.outcome.status, 0);
    assert!(rt;
        played
            .out
            .bytes()
            .ends_with(b"# worker 1: 16384 accepted, 1 dropped\n")
    );
    let report = played.outcome.report.ok_or("no report")?;
    let verdicts = report.verdicts.items().first().ok_or("no file")?;
    assert!(rt; verdicts.items().last() == Some(&Verdict::NoRoom));
    Ok(())
}

// So many times that byte.
fn repeated(alloc: Global, byte: u8, count: u64) -> Result<Vec<u8>, Fail> {
    let mut bytes = Vec::new(alloc);
    for _ in 0..count {
        bytes.push(byte)?;
    }
    Ok(bytes)
}

#[test]
fn lines_at_the_greatest_length(rt: HostRuntime) -> Result<(), Fail> {
    let alloc = rt.alloc();
    for (count, status, told) in [(1_024, 0, ""), (1_025, 3, "file 1 line 1: line too long\n")] {
        let wanted = Wanted {
            status,
            reports: true,
            out: NO_EVENTS_OUTPUT,
            err: told.as_bytes(),
        };
        let shelf = shelf_of(alloc, &repeated(alloc, b'#', count)?, 9_999)?;
        assert_call(&rt, alloc, "replay - f1", shelf, wanted)?;
    }
    Ok(())
}

// So many lists, one in another.
fn nested(alloc: Global, depth: u64) -> Result<Vec<u8>, Fail> {
    let mut bytes = repeated(alloc, b'[', depth)?;
    bytes.extend_from_slice(&repeated(alloc, b']', depth)?)?;
    Ok(bytes)
}

#[test]
fn the_deepest_bootstrap(rt: HostRuntime) -> Result<(), Fail> {
    let alloc = rt.alloc();
    for (depth, told) in [(127, "boot: bad key at top\n"), (128, "boot: not json\n")] {
        let wanted = Wanted {
            status: 2,
            reports: false,
            out: b"",
            err: told.as_bytes(),
        };
        let shelf = shelf_of(alloc, &nested(alloc, depth)?, 999)?;
        assert_call(&rt, alloc, "replay f1 f1", shelf, wanted)?;
    }
    Ok(())
}

// So many comment lines of 1,024 bytes with their newlines, and some bytes more.
fn comments(alloc: Global, lines: u64, more: &[u8]) -> Result<Vec<u8>, Fail> {
    let mut bytes = Vec::new(alloc);
    for _ in 0..lines {
        for _ in 0..1_023u64 {
            bytes.push(b'#')?;
        }
        bytes.push(b'\n')?;
    }
    bytes.extend_from_slice(more)?;
    Ok(bytes)
}

#[test]
fn a_file_at_the_greatest_size(rt: HostRuntime) -> Result<(), Fail> {
    let alloc = rt.alloc();
    let wanted = Wanted {
        status: 0,
        reports: true,
        out: NO_EVENTS_OUTPUT,
        err: b"",
    };
    let shelf = shelf_of(alloc, &comments(alloc, 8_192, b"")?, 999_999)?;
    assert_call(&rt, alloc, "replay - f1", shelf, wanted)
}

#[test]
fn a_file_past_the_greatest_size(rt: HostRuntime) -> Result<(), Fail> {
    let alloc = rt.alloc();
    let wanted = Wanted {
        status: 3,
        reports: true,
        out: NO_EVENTS_OUTPUT,
        err: b"file 1: too big\n",
    };
    let shelf = shelf_of(alloc, &comments(alloc, 8_192, b"#")?, 999_999)?;
    assert_call(&rt, alloc, "replay - f1", shelf, wanted)
}
