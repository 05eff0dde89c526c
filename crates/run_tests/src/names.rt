//! Names that come and go while readings are made: each reading has the names of one moment of the log, and no reading is
//! of an earlier moment than the one before.

use crate::known::KnownNames;
use crate::runs::{file_of, repeated, run};
use run_gates::PaceGate;
use stat_defs::{Entry, Kind, NoMemory, ReadRecord, Report};
use stats_io::MemSource;
use std::alloc::Global;
use std::slice::Iter;
use std::test::Fail;
use worker_run::Given;

const MANY_READINGS: &str = r#"{"stats_config":{"use_all_default_tags":false},
    "stats_run":{"flushes":64,"flush_every":5,"reads":64}}"#;

// Each run makes 64 readings.
const RUNS: u32 = 157;

// Of each worker: a scope with two counters and a gauge, which it opens and releases again and again.
const LINES: [&str; 4] = [
    "open s0 p0\ninc s0 a 1\ninc s0 b 1\nset s0 g acc 1\nrelease s0\n",
    "open s1 p1\ninc s1 a 1\ninc s1 b 1\nset s1 g acc 1\nrelease s1\n",
    "open s2 p2\ninc s2 a 1\ninc s2 b 1\nset s2 g acc 1\nrelease s2\n",
    "open s3 p3\ninc s3 a 1\ninc s3 b 1\nset s3 g acc 1\nrelease s3\n",
];

fn files(alloc: Global) -> Result<Vec<Given<MemSource>>, Fail> {
    let mut files = Vec::new(alloc);
    for lines in LINES {
        files.push(file_of(alloc, &repeated(alloc, lines, 40)?)?)?;
    }
    Ok(files)
}

// Follows the log up to the place of a reading. Whether the reading has the counters and the gauges that are not gone
// there.
fn is_of_its_place(
    known: &mut KnownNames,
    left: &mut Iter<'_, Entry>,
    followed: u64,
    reading: &ReadRecord,
) -> Result<bool, NoMemory> {
    for _ in followed..reading.at {
        if let Some(entry) = left.next() {
            known.follow(entry)?;
        }
    }
    Ok(
        known.are(Kind::Counter, reading.counters.items())
            && known.are(Kind::Gauge, reading.gauges.items()),
    )
}

// Whether each reading has the names that were not gone behind its place, which never falls, and which is not the start of
// the log: each reading waits for five events, and where four workers have done five, one of them has made a counter.
fn are_of_the_log(alloc: Global, report: &Report) -> Result<bool, NoMemory> {
    let mut known = KnownNames::new(alloc, 4)?;
    let mut left = report.log.items().iter();
    let mut followed = 0u64;
    for reading in report.reads.items() {
        let goes_on = reading.at > 0 && reading.at >= followed;
        if !goes_on || !is_of_its_place(&mut known, &mut left, followed, reading)? {
            return Ok(false);
        }
        followed = reading.at;
    }
    Ok(known.agrees)
}

// How many names a reading finds depends on the schedule: all of them may be gone. A reading that must find one is in
// `rows::a_reading_between_two_events`.
#[test]
fn readings_are_of_one_moment_each(rt: HostRuntime) -> Result<(), Fail> {
    let alloc = rt.alloc();
    for _ in 0..RUNS {
        let gate = PaceGate::new(alloc, 4, 5)?;
        let report = run(&rt, alloc, &gate, MANY_READINGS, files(alloc)?)?;
        assert!(rt; report.reads.items().len() == 64);
        assert!(rt; are_of_the_log(alloc, &report)?);
        drop(report);
    }
    Ok(())
}
