//! Runs under gates. Each test asserts only what every schedule gives.

use crate::gates::{FlushAmong, OneFirst, ReadingBetween, WorkerFirst};
use crate::runs::{
    all_values, delta_of, file_of, file_with_faults, gauge_of, never_falls, repeated, run,
    units_of, values_in, word_of,
};
use run_gates::PaceGate;
use stat_defs::{FileEnd, FlushRecord, MetricId, Report, Verdict};
use stats_io::MemSource;
use std::alloc::Global;
use std::test::Fail;
use worker_run::Given;

// The first metric that is made.
const FIRST: MetricId = MetricId(0);

// No flush but the last one, and no reading.
const NO_ROUNDS: &str = r#"{"stats_config":{"use_all_default_tags":false}}"#;

const TWO_FLUSHES_AND_A_READING: &str = r#"{"stats_run":{"flushes":2,"flush_every":3,"reads":1}}"#;

const TWO_READINGS: &str =
    r#"{"stats_config":{"use_all_default_tags":false},"stats_run":{"reads":2}}"#;

const TWO_FLUSHES: &str =
    r#"{"stats_config":{"use_all_default_tags":false},"stats_run":{"flushes":2}}"#;

// As many as a configuration may have.
const MOST_ROUNDS: &str = r#"{"stats_config":{"use_all_default_tags":false},
    "stats_run":{"flushes":64,"flush_every":625,"reads":64}}"#;

const FORTY_ROUNDS: &str = r#"{"stats_config":{"use_all_default_tags":false},
    "stats_run":{"flushes":40,"flush_every":800,"reads":40}}"#;

#[test]
fn workers_run_side_by_side(rt: HostRuntime) -> Result<(), Fail> {
    let alloc = rt.alloc();
    let gate = OneFirst::new(2);
    let first = file_of(alloc, "inc root a 3\n")?;
    let second = file_of(alloc, "inc root a 4\n")?;
    let files = vec![in alloc; first, second]?;
    let report = run(&rt, alloc, &gate, NO_ROUNDS, files)?;
    assert!(rt;
        !gate.patience.is_lost(),
        "worker 1 waited for worker 2 in vain"
    );
    assert!(rt; units_of(report.flushes.items(), FIRST) == 7);
    drop(report);
    Ok(())
}

#[test]
fn rounds_behind_the_worker(rt: HostRuntime) -> Result<(), Fail> {
    let alloc = rt.alloc();
    let gate = WorkerFirst::new();
    let lines = repeated(alloc, "inc root a 1\n", 10)?;
    let files = vec![in alloc; file_of(alloc, lines.as_str())?]?;
    let report = run(&rt, alloc, &gate, TWO_FLUSHES_AND_A_READING, files)?;
    assert!(rt;
        !gate.patience.is_lost(),
        "a round waited for the worker in vain"
    );
    let flushes = report.flushes.items();
    let readings = report.reads.items();
    assert!(rt; flushes.len() == 3 && readings.len() == 1);
    assert!(rt; delta_of(&flushes[0], FIRST) == 10 && units_of(&flushes[1..], FIRST) == 0);
    assert!(rt; word_of(&readings[0], FIRST) == 10);
    drop(report);
    Ok(())
}

#[test]
fn a_reading_between_two_events(rt: HostRuntime) -> Result<(), Fail> {
    let alloc = rt.alloc();
    let gate = ReadingBetween::new();
    let files = vec![in alloc; file_of(alloc, "inc root a 1\ninc root a 2\n")?]?;
    let report = run(&rt, alloc, &gate, TWO_READINGS, files)?;
    assert!(rt;
        !gate.patience.is_lost(),
        "an event and a reading waited in vain"
    );
    let readings = report.reads.items();
    assert!(rt; readings.len() == 2 && word_of(&readings[0], FIRST) == 1);
    assert!(rt; units_of(report.flushes.items(), FIRST) == 3);
    drop(report);
    Ok(())
}

// A worker turns its half before an event, so a flush that ends before the worker is done was begun before the last event,
// which makes the counter. It has the five values before it began, and not the counter.
#[test]
fn halves_turn_during_the_run(rt: HostRuntime) -> Result<(), Fail> {
    let alloc = rt.alloc();
    let gate = FlushAmong::new();
    let mut lines = repeated(alloc, "rec root h 7\n", 1_004)?;
    lines.push_str("inc root z 1\n")?;
    let files = vec![in alloc; file_of(alloc, lines.as_str())?]?;
    let report = run(&rt, alloc, &gate, TWO_FLUSHES, files)?;
    assert!(rt;
        !gate.patience.is_lost(),
        "flush 1 waited for the sixth event in vain"
    );
    assert!(rt; gate.was_among(), "flush 1 came too late");
    let flushes = report.flushes.items();
    let last = MetricId(1);
    assert!(rt; flushes.len() == 3);
    let parts = flushes[0].parts.items().len();
    let values = values_in(&flushes[0]);
    assert!(rt;
        parts == 1 && values >= 5,
        "flush 1 has {parts} parts with {values} values"
    );
    assert!(rt;
        flushes[0].deltas.items().is_empty(),
        "flush 1 has units of z"
    );
    assert!(rt; units_of(&flushes[1..], last) == 1 && all_values(flushes) == 1_004);
    drop(report);
    Ok(())
}

// Each of eight workers counts in turn in one counter, which all of them find, and in one of its own.
fn crowd(alloc: Global) -> Result<Vec<Given<MemSource>>, Fail> {
    let mut files = Vec::new(alloc);
    for worker in 1..=8u32 {
        let pair = format!(in alloc; "inc root a 1\ninc root w{worker} 1\n")?;
        let lines = repeated(alloc, pair.as_str(), 2_000)?;
        files.push(file_of(alloc, lines.as_str())?)?;
    }
    Ok(files)
}

// The metric that the event at this place, from 0, was counted in.
fn accepted_at(verdicts: &[Verdict], place: usize) -> Option<MetricId> {
    match verdicts.get(place) {
        Some(Verdict::Accepted(id)) => Some(*id),
        _ => None,
    }
}

// Whether the events were counted in these two in turn.
fn alternate(verdicts: &[Verdict], first: MetricId, second: MetricId) -> bool {
    let mut next = first;
    for verdict in verdicts {
        if *verdict != Verdict::Accepted(next) {
            return false;
        }
        next = if next == first { second } else { first };
    }
    true
}

// Whether a worker's events were counted in the shared counter and in its own, which has no others' units.
fn is_counted(report: &Report, verdicts: &[Verdict], shared: MetricId) -> bool {
    let Some(own) = accepted_at(verdicts, 1) else {
        return false;
    };
    verdicts.len() == 4_000
        && alternate(verdicts, shared, own)
        && units_of(report.flushes.items(), own) == 2_000
        && never_falls(report.reads.items(), own)
}

#[test]
fn a_crowd_loses_no_unit(rt: HostRuntime) -> Result<(), Fail> {
    let alloc = rt.alloc();
    let gate = PaceGate::new(alloc, 8, 800)?;
    let report = run(&rt, alloc, &gate, FORTY_ROUNDS, crowd(alloc)?)?;
    let verdicts = report.verdicts.items();
    let flushes = report.flushes.items();
    let readings = report.reads.items();
    assert!(rt; verdicts.len() == 8 && flushes.len() == 41 && readings.len() == 40);
    // Whichever worker was first to find it, the shared counter has one number for all.
    let shared = accepted_at(verdicts[0].items(), 0).unwrap_or(FIRST);
    assert!(rt; units_of(flushes, shared) == 16_000 && never_falls(readings, shared));
    for told in verdicts {
        assert!(rt; is_counted(&report, told.items(), shared));
    }
    for end in report.ends.items() {
        assert!(rt; end.end == FileEnd::Whole);
    }
    drop(report);
    Ok(())
}

// Each worker makes these metrics in this order, so that they have the numbers 0 to 3 in every schedule.
const COMMON_NAMES: &str =
    "inc root a 1\ninc root b 2\nadd root g acc 5\nsub root g acc 2\nrec root h 7\n";

// Whether these are the verdicts on 10,000 events of the common names.
fn are_common(verdicts: &[Verdict]) -> bool {
    let turn = [
        Verdict::Accepted(MetricId(0)),
        Verdict::Accepted(MetricId(1)),
        Verdict::Accepted(MetricId(2)),
        Verdict::Accepted(MetricId(2)),
        Verdict::Accepted(MetricId(3)),
    ];
    for told in verdicts.chunks(5) {
        if told != turn.as_slice() {
            return false;
        }
    }
    verdicts.len() == 10_000
}

// Whether no unit, step or value of 8,000 times the common names was lost.
fn is_common_sum(flushes: &[FlushRecord]) -> bool {
    let Some(last) = flushes.last() else {
        return false;
    };
    units_of(flushes, MetricId(0)) == 8_000
        && units_of(flushes, MetricId(1)) == 16_000
        && gauge_of(last, MetricId(2)) == Some(24_000)
        && all_values(flushes) == 8_000
}

#[test]
fn workers_share_common_names(rt: HostRuntime) -> Result<(), Fail> {
    let alloc = rt.alloc();
    let gate = PaceGate::new(alloc, 4, 625)?;
    let mut files = Vec::new(alloc);
    for _ in 0..4 {
        let lines = repeated(alloc, COMMON_NAMES, 2_000)?;
        files.push(file_of(alloc, lines.as_str())?)?;
    }
    let report = run(&rt, alloc, &gate, MOST_ROUNDS, files)?;
    let flushes = report.flushes.items();
    let readings = report.reads.items();
    assert!(rt; flushes.len() == 65 && readings.len() == 64);
    assert!(rt; is_common_sum(flushes));
    assert!(rt; never_falls(readings, MetricId(0)) && never_falls(readings, MetricId(1)));
    assert!(rt; report.verdicts.items().len() == 4);
    for told in report.verdicts.items() {
        assert!(rt; are_common(told.items()));
    }
    drop(report);
    Ok(())
}

// As many workers as a run may have, with an event each.
#[test]
fn each_worker_has_one_event(rt: HostRuntime) -> Result<(), Fail> {
    let alloc = rt.alloc();
    let gate = PaceGate::new(alloc, 32, 3)?;
    let mut files = Vec::new(alloc);
    for _ in 0..32 {
        files.push(file_of(alloc, "inc root a 1\n")?)?;
    }
    let report = run(&rt, alloc, &gate, TWO_FLUSHES_AND_A_READING, files)?;
    assert!(rt; report.verdicts.items().len() == 32);
    for told in report.verdicts.items() {
        assert!(rt; told.items() == [Verdict::Accepted(FIRST)].as_slice());
    }
    assert!(rt; units_of(report.flushes.items(), FIRST) == 32);
    drop(report);
    Ok(())
}

// The lines of 13 bytes that a pull of 4,096 bytes has whole.
const WHOLE_LINES: usize = 315;

// A worker whose second pull fails counts the whole lines of the first, and the workers beside it go on to their ends.
#[test]
fn a_fault_ends_one_file_alone(rt: HostRuntime) -> Result<(), Fail> {
    let alloc = rt.alloc();
    let gate = PaceGate::new(alloc, 3, 3)?;
    let lines = repeated(alloc, "inc root a 1\n", 1_000)?;
    let cut = file_with_faults(alloc, lines.as_str(), vec![in alloc; 1]?)?;
    let mut files = vec![in alloc; cut]?;
    files.push(file_of(alloc, lines.as_str())?)?;
    files.push(file_of(alloc, lines.as_str())?)?;
    let report = run(&rt, alloc, &gate, TWO_FLUSHES_AND_A_READING, files)?;
    let (verdicts, ends) = (report.verdicts.items(), report.ends.items());
    assert!(rt; ends.len() == 3 && verdicts.len() == 3);
    assert!(rt; ends[0].end == FileEnd::ReadFault && verdicts[0].items().len() == WHOLE_LINES);
    assert!(rt; ends[1].end == FileEnd::Whole && verdicts[1].items().len() == 1_000);
    assert!(rt; ends[2].end == FileEnd::Whole && verdicts[2].items().len() == 1_000);
    assert!(rt; units_of(report.flushes.items(), FIRST) == 2_315);
    drop(report);
    Ok(())
}
