//! Files that are made to be hard: many workers that open and release one scope, and files that are cut anywhere. Each
//! test asserts only what every schedule gives.

use crate::runs::{all_values, file_of, repeated, run};
use run_gates::PaceGate;
use stat_defs::{Entry, FileEnd, FlushRecord, Reply, Report, ScopeId, Verdict};
use stats_io::MemSource;
use std::alloc::Global;
use std::process::Abort;
use std::sync::Wait;
use std::test::Fail;
use std::thread::Threads;
use worker_run::Given;

const NO_ROUNDS: &str = r#"{"stats_config":{"use_all_default_tags":false}}"#;

// The scope `s` has the number 1, behind that of `root`.
const ONE_SCOPE: &str = r#"{"stats_config":{"use_all_default_tags":false},
    "stats_run":{"scopes":[{"label":"s","prefix":"p"}]}}"#;

const THREE_FLUSHES: &str =
    r#"{"stats_config":{"use_all_default_tags":false},"stats_run":{"flushes":3,"flush_every":2}}"#;

// As many files of these lines as a run may have.
fn alike(alloc: Global, lines: &str) -> Result<Vec<Given<MemSource>>, Fail> {
    let mut files = Vec::new(alloc);
    for _ in 0..32 {
        files.push(file_of(alloc, lines)?)?;
    }
    Ok(files)
}

#[test]
fn one_of_many_releases(rt: HostRuntime) -> Result<(), Fail> {
    let alloc = rt.alloc();
    let gate = PaceGate::new(alloc, 32, 1_000)?;
    let report = run(&rt, alloc, &gate, ONE_SCOPE, alike(alloc, "release s\n")?)?;
    let mut released = 0u64;
    let mut in_vain = 0u64;
    for told in report.verdicts.items() {
        match told.items() {
            [Verdict::Released(ScopeId(1))] => released = released.wrapping_add(1),
            [Verdict::NoScope] => in_vain = in_vain.wrapping_add(1),
            _ => {}
        }
    }
    assert!(rt; released == 1 && in_vain == 31);
    for end in report.ends.items() {
        assert!(rt; end.end == FileEnd::Whole);
    }
    drop(report);
    Ok(())
}

// What the verdicts of a run say of scopes: the numbers that were opened, those that were released, and how many other
// events were accepted.
#[derive(Drop)]
struct Scopes {
    opened: Vec<ScopeId>,
    released: Vec<ScopeId>,
    accepted: u64,
}

fn tell_scope(scopes: &mut Scopes, verdict: Verdict) -> Result<(), Fail> {
    match verdict {
        Verdict::Opened(id) => scopes.opened.push(id)?,
        Verdict::Released(id) => scopes.released.push(id)?,
        Verdict::Accepted(_) => scopes.accepted = scopes.accepted.wrapping_add(1),
        _ => {}
    }
    Ok(())
}

fn scopes_in(alloc: Global, report: &Report) -> Result<Scopes, Fail> {
    let mut scopes = Scopes {
        opened: Vec::new(alloc),
        released: Vec::new(alloc),
        accepted: 0,
    };
    for told in report.verdicts.items() {
        for verdict in told.items() {
            tell_scope(&mut scopes, *verdict)?;
        }
    }
    Ok(scopes)
}

// How often the number stands in the list.
fn times_in(ids: &[ScopeId], id: ScopeId) -> u64 {
    let mut times = 0u64;
    for other in ids {
        if *other == id {
            times = times.wrapping_add(1);
        }
    }
    times
}

fn stand_once(ids: &[ScopeId]) -> bool {
    for id in ids {
        if times_in(ids, *id) != 1 {
            return false;
        }
    }
    true
}

// Whether the log has the scope's opening before its release.
fn is_opened_first(log: &[Entry], id: ScopeId) -> bool {
    for entry in log {
        if entry.reply == Reply::Opened(id) {
            return true;
        }
        if entry.reply == Reply::Released(id) {
            return false;
        }
    }
    false
}

// The units of all counters in all these flushes.
fn total_units(flushes: &[FlushRecord]) -> u64 {
    let mut units = 0u64;
    for flush in flushes {
        for delta in flush.deltas.items() {
            units = units.wrapping_add(delta.n);
        }
    }
    units
}

// All counters of these files are `p.a`, made anew for each scope that was released in between.
#[test]
fn a_scope_is_opened_and_released_by_all(rt: HostRuntime) -> Result<(), Fail> {
    let alloc = rt.alloc();
    let gate = PaceGate::new(alloc, 32, 2)?;
    let files = alike(alloc, "open s p\ninc s a 1\nrelease s\n")?;
    let report = run(&rt, alloc, &gate, THREE_FLUSHES, files)?;
    let scopes = scopes_in(alloc, &report)?;
    assert!(rt; stand_once(&scopes.opened) && stand_once(&scopes.released));
    for id in &scopes.released {
        assert!(rt; times_in(&scopes.opened, *id) == 1);
        assert!(rt; is_opened_first(report.log.items(), *id));
    }
    assert!(rt; total_units(report.flushes.items()) == scopes.accepted);
    drop(report);
    Ok(())
}

const CUT: &[u8] = b"inc root a 1\nrec root h 7\nrelease root\n";

// Of the file cut behind each length from the first one to the second: how many of its events are accepted or release a
// scope, how many find none, and the line that is no event, 0 where each is one.
const CUTS: [(usize, usize, u64, u64, u64); 8] = [
    (0, 0, 0, 0, 0),
    (1, 11, 0, 0, 1),
    (12, 13, 1, 0, 0),
    (14, 24, 1, 0, 2),
    (25, 26, 2, 0, 0),
    (27, 34, 2, 0, 3),
    // `release r`, `release ro` and `release roo` are events.
    (35, 37, 2, 1, 0),
    (38, 39, 3, 0, 0),
];

// A file of these bytes, given all at once.
fn file_of_bytes(alloc: Global, bytes: &[u8]) -> Result<Given<MemSource>, Fail> {
    let bytes = bytes.to_vec(alloc)?;
    let source = MemSource::new(String::new(alloc), bytes, 4096, Vec::new(alloc));
    Ok(Given::Opened(source))
}

// How many events of the first file found no scope, and how many others it has.
fn counts_of(report: &Report) -> (u64, u64) {
    let mut found = 0u64;
    let mut in_vain = 0u64;
    for told in report.verdicts.items() {
        for verdict in told.items() {
            if *verdict == Verdict::NoScope {
                in_vain = in_vain.wrapping_add(1);
            } else {
                found = found.wrapping_add(1);
            }
        }
    }
    (found, in_vain)
}

fn assert_cut<R: Threads + Wait + Abort + Sync>(
    rt: &R,
    alloc: Global,
    length: usize,
    wanted: (u64, u64, u64),
) -> Result<(), Fail> {
    let (found, in_vain, bad) = wanted;
    let gate = PaceGate::new(alloc, 1, 1_000)?;
    let file = file_of_bytes(alloc, CUT.get(..length).unwrap_or(b"?"))?;
    let report = run(rt, alloc, &gate, NO_ROUNDS, vec![in alloc; file]?)?;
    assert!(rt;
        counts_of(&report) == (found, in_vain),
        "cut behind {length}"
    );
    let end = match bad {
        0 => FileEnd::Whole,
        line => FileEnd::BadLine(line),
    };
    for told in report.ends.items() {
        assert!(rt; told.end == end, "cut behind {length}");
    }
    drop(report);
    Ok(())
}

#[test]
fn a_file_cut_anywhere(rt: HostRuntime) -> Result<(), Fail> {
    assert_eq!(rt; CUT.len(), 39);
    for (first, last, found, in_vain, bad) in CUTS {
        for length in first..=last {
            assert_cut(&rt, rt.alloc(), length, (found, in_vain, bad))?;
        }
    }
    Ok(())
}

// Three flushes and the last one, whatever each of them has of ten values that are cut behind some of them.
#[test]
fn values_cut_anywhere(rt: HostRuntime) -> Result<(), Fail> {
    let alloc = rt.alloc();
    for count in 0..=10u32 {
        let gate = PaceGate::new(alloc, 1, 2)?;
        let lines = repeated(alloc, "rec root h 7\n", count)?;
        let files = vec![in alloc; file_of(alloc, lines.as_str())?]?;
        let report = run(&rt, alloc, &gate, THREE_FLUSHES, files)?;
        assert!(rt;
            all_values(report.flushes.items()) == u64::from(count),
            "{count} values"
        );
        assert!(rt; report.flushes.items().len() == 4);
        drop(report);
    }
    Ok(())
}
