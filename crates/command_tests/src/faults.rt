//! What fails: openings, pulls, pushes and patterns.

use crate::calls::{NO_EVENTS_OUTPUT, TWO_INCS, assert_call, play, play_over, play_with};
use stats_io::{MemShelf, MemSink, Shelf};
use std::alloc::Global;
use std::process::Abort;
use std::test::Fail;
use tag_rules::RegexMaker;
use test_support::{Played, Wanted, shelf_of};

#[test]
fn a_missing_file(rt: HostRuntime) -> Result<(), Fail> {
    let alloc = rt.alloc();
    let wanted = Wanted {
        status: 4,
        reports: true,
        out: NO_EVENTS_OUTPUT,
        err: b"file 1: not opened\n",
    };
    let shelf = MemShelf::new(Vec::new(alloc), Vec::new(alloc));
    assert_call(&rt, alloc, "replay - f1", shelf, wanted)
}

#[test]
fn a_missing_bootstrap(rt: HostRuntime) -> Result<(), Fail> {
    let alloc = rt.alloc();
    let wanted = Wanted {
        status: 4,
        reports: false,
        out: b"",
        err: b"boot: read failed\n",
    };
    let shelf = shelf_of(alloc, TWO_INCS, 9)?;
    assert_call(&rt, alloc, "replay b f1", shelf, wanted)
}

// The status of a call, and how many faults the source of its bootstrap counted: whichever pull of it fails is its first
// fault. A failed opening and an event file's source are counted elsewhere.
#[test]
fn the_count_of_a_bootstrap_whose_source_fails(rt: HostRuntime) -> Result<(), Fail> {
    let alloc = rt.alloc();
    let boot = br#"{"stats_config":{"use_all_default_tags":false}}"#;
    for (words, failing_pull, status, boot_faults) in [
        ("check f1", 0, 4, 1),
        ("check f1", 2, 4, 1),
        ("check f1", 999, 0, 0),
        ("check f9", 999, 4, 0),
        ("replay f1 f1", 2, 4, 1),
        ("replay f1 f1", 999, 3, 0),
        ("replay - f1", 0, 4, 0),
    ] {
        let shelf = shelf_of(alloc, boot, failing_pull)?;
        let played = play_over(alloc, words, shelf, 100, 999)?;
        assert_eq!(rt; played.outcome.status, status, "{words}");
        assert_eq!(rt;
            played.outcome.boot_faults,
            boot_faults,
            "{words} {failing_pull}"
        );
    }
    Ok(())
}

#[test]
fn a_refused_pattern(rt: HostRuntime) -> Result<(), Fail> {
    let alloc = rt.alloc();
    let wanted = Wanted {
        status: 2,
        reports: false,
        out: b"",
        err: b"boot: bad pattern at default_tags[0]\n",
    };
    let shelf = MemShelf::new(Vec::new(alloc), Vec::new(alloc));
    let played = play(alloc, "replay - f1", shelf, 0, 100, 999)?;
    assert!(rt; played.came_to(wanted) && played.shelf.fault_count() == 0);
    Ok(())
}

// With the push of that number failing, so many bytes of the output are written.
fn assert_cut(
    rt: &impl Abort,
    alloc: Global,
    words: &str,
    output: &[u8],
    failing_push: u64,
) -> Result<(), Fail> {
    let shelf = shelf_of(alloc, TWO_INCS, 9)?;
    let played = play_over(alloc, words, shelf, 1, failing_push)?;
    let whole = failing_push == output.len() as u64;
    assert_eq!(rt;
        played.outcome.status,
        if whole { 0 } else { 5 },
        "{words} {failing_push}"
    );
    assert_eq!(rt; played.out.bytes().len() as u64, failing_push);
    assert!(rt; output.starts_with(played.out.bytes()));
    let told = if whole { "" } else { "write failed\n" };
    assert!(rt;
        played.err.bytes() == told.as_bytes(),
        "{words} {failing_push}"
    );
    Ok(())
}

// Commands with their outputs.
const WHOLE_OUTPUTS: [(&str, &str); 3] = [
    (
        "replay - f1",
        "# last\nenvoy.a:7|c\n# worker 1: 2 accepted, 0 dropped\n",
    ),
    ("bins 0 7 10", "0 0 0\n7 70 0\n10 10 1\n"),
    (
        "check -",
        "ok: 4 tag rules, 0 patterns, 0 bucket settings, 1 scopes\n",
    ),
];

#[test]
fn each_push_failing(rt: HostRuntime) -> Result<(), Fail> {
    for (words, output) in WHOLE_OUTPUTS {
        for k in 0..output.len() as u64 + 1 {
            assert_cut(&rt, rt.alloc(), words, output.as_bytes(), k)?;
        }
    }
    Ok(())
}

// Calls with the status that each comes to.
const EACH_STATUS: [(&str, &str, u64, u8); 6] = [
    ("replay - f1", "inc root a 3\ninc root a 4\n", 999, 0),
    ("replay", "", 999, 1),
    ("replay f1 f1", "[", 999, 2),
    ("replay - f1", "inc root a 3\nbogus\n", 999, 3),
    ("replay - f9", "", 999, 4),
    ("replay - f1", "inc root a 3\n", 5, 5),
];

// A call whose push on `err` of that number fails.
fn play_unheard(
    alloc: Global,
    words: &str,
    file: &str,
    failing_push: u64,
    unheard: u64,
) -> Result<Played, Fail> {
    let maker = RegexMaker::new(Vec::new(alloc));
    let out = MemSink::new(alloc, 2000, 1, vec![in alloc; failing_push]?)?;
    let err = MemSink::new(alloc, 1000, 3, vec![in alloc; unheard]?)?;
    let shelf = shelf_of(alloc, file.as_bytes(), 9)?;
    play_with(alloc, words, maker, shelf, out, err)
}

#[test]
fn a_failing_err_changes_nothing_else(rt: HostRuntime) -> Result<(), Fail> {
    let alloc = rt.alloc();
    for (words, file, failing_push, status) in EACH_STATUS {
        let heard = play_unheard(alloc, words, file, failing_push, 999)?;
        assert_eq!(rt; heard.outcome.status, status, "{words}");
        for unheard in [0, 1] {
            let played = play_unheard(alloc, words, file, failing_push, unheard)?;
            assert_eq!(rt; played.outcome.status, status, "{words} {unheard}");
            assert!(rt;
                played.out.bytes() == heard.out.bytes(),
                "{words} {unheard}"
            );
            assert!(rt;
                heard.err.bytes().starts_with(played.err.bytes()),
                "{words} {unheard}"
            );
        }
    }
    Ok(())
}
