//! Four workers' events under a proxy's bootstrap, in whatever order the workers do them.

use crate::gates::{InTurn, OneFirst};
use crate::runs::{file_of, repeated, run, units_of};
use run_gates::PaceGate;
use stat_defs::{FileEnd, FlushRecord, MetricId, Part, Report, Verdict};
use stats_io::MemSource;
use std::alloc::Global;
use std::process::Abort;
use std::sync::Wait;
use std::test::Fail;
use std::thread::Threads;
use worker_run::Given;

const USUAL: &str = r#"{"stats_config":{
    "use_all_default_tags":true,
    "stats_tags":[{"tag_name":"region","fixed_value":"eu-1"}],
    "stats_matcher":{"exclusion_list":{"patterns":[
        {"prefix":"cluster.api.internal."},{"safe_regex":{"regex":".*\\.debug"}}]}},
    "histogram_bucket_settings":[{"match":{"suffix":"_ms"},"buckets":[10,50,100,1000]}]},
    "stats_run":{"scopes":[{"label":"web","prefix":"http.web."},{"label":"api","prefix":"cluster.api"}]}}"#;

// A thousand events: counters and a histogram of all workers, gauges of this one, and as every fifth event one whose
// name the matcher does not admit.
fn usual_lines(alloc: Global, worker: u32) -> Result<String, Fail> {
    let mut lines = String::new(alloc);
    for i in 0..200u32 {
        let own = format!(in alloc; "set root worker{worker}.level{} acc {i}\n", i % 3)?;
        let shared = format!(in alloc;
            "inc web downstream_rq_{}xx {i}\nrec web rq_time_ms {}\ninc api upstream_rq_20{} 2\ninc api x{}.debug 1\n",
            i % 5,
            i.wrapping_mul(worker),
            i % 7,
            i % 2
        )?;
        lines.push_str(own.as_str())?;
        lines.push_str(shared.as_str())?;
    }
    Ok(lines)
}

// A file for each of four workers.
fn usual_files(alloc: Global) -> Result<Vec<Given<MemSource>>, Fail> {
    let mut files = Vec::new(alloc);
    for worker in 1..=4u32 {
        let lines = usual_lines(alloc, worker)?;
        files.push(file_of(alloc, lines.as_str())?)?;
    }
    Ok(files)
}

// The word of a gauge in the last of these flushes that has it.
fn level_in(flushes: &[FlushRecord], id: MetricId) -> Option<u64> {
    let mut level = None;
    for flush in flushes {
        for gauge in flush.gauges.items() {
            if gauge.id == id {
                level = Some(gauge.word);
            }
        }
    }
    level
}

// Whether the metric of `one` has the units and the level that the other one has in `others`.
fn same_sums(
    flushes: &[FlushRecord],
    one: MetricId,
    others: &[FlushRecord],
    other: MetricId,
) -> bool {
    units_of(flushes, one) == units_of(others, other)
        && level_in(flushes, one) == level_in(others, other)
}

// Whether two workers' events were counted alike: the numbers of the metrics are those of the schedule, and what was
// counted under them is not.
fn counted_alike(
    flushes: &[FlushRecord],
    told: &[Verdict],
    others: &[FlushRecord],
    other_told: &[Verdict],
) -> bool {
    if told.len() != other_told.len() {
        return false;
    }
    for (one, other) in told.iter().zip(other_told) {
        let alike = match (one, other) {
            (Verdict::Accepted(id), Verdict::Accepted(other_id)) => {
                same_sums(flushes, *id, others, *other_id)
            }
            (one, other) => one == other,
        };
        if !alike {
            return false;
        }
    }
    true
}

// Whether both have a worker's values of one histogram.
fn same_values(part: &Part, other: &Part) -> bool {
    part.worker == other.worker && part.bins.items() == other.bins.items()
}

// Whether both flushes have the same values, worker by worker.
fn same_parts(flush: &FlushRecord, other: &FlushRecord) -> bool {
    let (parts, others) = (flush.parts.items(), other.parts.items());
    if parts.len() != others.len() {
        return false;
    }
    for (part, other) in parts.iter().zip(others) {
        if !same_values(part, other) {
            return false;
        }
    }
    true
}

// Whether every fifth of a worker's thousand events was rejected, and every other one accepted.
fn are_due(verdicts: &[Verdict]) -> bool {
    let mut place = 0u64;
    for verdict in verdicts {
        place = place.wrapping_add(1);
        let due = match verdict {
            Verdict::Accepted(_) => place % 5 != 0,
            Verdict::Rejected => place % 5 == 0,
            _ => false,
        };
        if !due {
            return false;
        }
    }
    place == 1_000
}

// The units under the number that the event at this place, from 0, was given.
fn units_at(report: &Report, verdicts: &[Verdict], place: usize) -> u64 {
    match verdicts.get(place) {
        Some(Verdict::Accepted(id)) => units_of(report.flushes.items(), *id),
        _ => 0,
    }
}

// A gated run came to what the free one came to.
fn assert_alike(rt: &impl Abort, report: &Report, free: &Report) {
    let (told, free_told) = (report.verdicts.items(), free.verdicts.items());
    let (flushes, free_flushes) = (report.flushes.items(), free.flushes.items());
    assert!(rt; told.len() == 4 && free_told.len() == 4);
    assert!(rt; flushes.len() == 1 && free_flushes.len() == 1);
    for (of_worker, of_free) in told.iter().zip(free_told) {
        let verdicts = of_worker.items();
        assert!(rt; are_due(verdicts) && are_due(of_free.items()));
        assert!(rt; counted_alike(flushes, verdicts, free_flushes, of_free.items()));
        // Of `http.web.downstream_rq_0xx` and of `cluster.api.upstream_rq_200`, by hand.
        assert!(rt;
            units_at(report, verdicts, 1) == 15_600 && units_at(report, verdicts, 3) == 232
        );
    }
    assert!(rt; same_parts(&flushes[0], &free_flushes[0]));
    for end in report.ends.items() {
        assert!(rt; end.end == FileEnd::Whole);
    }
}

// The report of a run whose workers are not held up.
fn free_report<R: Threads + Wait + Abort + Sync>(rt: &R, alloc: Global) -> Result<Report, Fail> {
    let gate = PaceGate::new(alloc, 4, 1_000)?;
    run(rt, alloc, &gate, USUAL, usual_files(alloc)?)
}

#[test]
fn one_worker_first(rt: HostRuntime) -> Result<(), Fail> {
    let alloc = rt.alloc();
    let gate = OneFirst::new(3);
    let free = free_report(&rt, alloc)?;
    let report = run(&rt, alloc, &gate, USUAL, usual_files(alloc)?)?;
    assert!(rt;
        !gate.patience.is_lost(),
        "a worker waited for worker 3 in vain"
    );
    assert_alike(&rt, &report, &free);
    drop(report);
    drop(free);
    Ok(())
}

// No file has the worker that the others wait for.
#[test]
fn a_gate_that_waits_in_vain_lets_go(rt: HostRuntime) -> Result<(), Fail> {
    let alloc = rt.alloc();
    let gate = OneFirst::in_a_hurry(3);
    let lines = repeated(alloc, "inc root a 1\n", 10)?;
    let files = vec![in alloc;
        file_of(alloc, lines.as_str())?,
        file_of(alloc, lines.as_str())?,
    ]?;
    let report = run(&rt, alloc, &gate, USUAL, files)?;
    assert!(rt; gate.patience.is_lost());
    for verdicts in report.verdicts.items() {
        assert!(rt; verdicts.items().len() == 10);
    }
    drop(report);
    Ok(())
}

#[test]
fn workers_in_turn(rt: HostRuntime) -> Result<(), Fail> {
    let alloc = rt.alloc();
    let gate = InTurn::new(4);
    let free = free_report(&rt, alloc)?;
    let report = run(&rt, alloc, &gate, USUAL, usual_files(alloc)?)?;
    assert!(rt;
        !gate.patience.is_lost(),
        "a worker waited for its turn in vain"
    );
    assert_alike(&rt, &report, &free);
    drop(report);
    drop(free);
    Ok(())
}
