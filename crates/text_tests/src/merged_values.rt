//! Halves of recorded values, merged round by round.

use merge_round::{Half, MAX_HALF_COUNT, Parents};
use stat_defs::{BinList, MetricId, Part, Weighed};
use std::alloc::Global;
use std::process::Abort;
use std::test::Fail;

fn record(rt: &impl Abort, alloc: Global, half: &mut Half, id: u32, v: u64) -> Result<(), Fail> {
    assert!(rt; half.weight() < MAX_HALF_COUNT);
    half.record(alloc, MetricId(id), v)?;
    Ok(())
}

fn take(
    rt: &impl Abort,
    alloc: Global,
    parents: &mut Parents,
    worker: u32,
    half: &mut Half,
) -> Result<(), Fail> {
    assert!(rt; parents.count() < 1_000_000);
    assert!(rt; half.weight() < 1_000_000);
    parents.take_half(alloc, worker, half)?;
    Ok(())
}

// Adds bins, each as its two digits, its exponent and its count.
fn tell_bins(alloc: Global, told: &mut String, bins: &BinList) -> Result<(), Fail> {
    for one in bins.items() {
        let (val, exp, count) = (one.bin.val, one.bin.exp, one.count);
        told.push_str(format!(in alloc; "({val},{exp}) {count} ")?.as_str())?;
    }
    Ok(())
}

// Adds parts, each as its worker, its histogram and its bins.
fn tell_parts(alloc: Global, told: &mut String, parts: &[Part]) -> Result<(), Fail> {
    for part in parts {
        let (worker, id) = (part.worker, part.id.0);
        told.push_str(format!(in alloc; "{worker}:{id} ")?.as_str())?;
        tell_bins(alloc, told, &part.bins)?;
    }
    Ok(())
}

// Adds the bins of a histogram in the round, and in all rounds.
fn show(alloc: Global, told: &mut String, parents: &Parents, id: u32) -> Result<(), Fail> {
    let interval = parents.interval(alloc, MetricId(id))?;
    tell_bins(alloc, told, &interval)?;
    told.push_str("| ")?;
    let cumulative = parents.cumulative(alloc, MetricId(id))?;
    tell_bins(alloc, told, &cumulative)
}

fn next_round(alloc: Global, told: &mut String, parents: &mut Parents) -> Result<(), Fail> {
    let parts = parents.new_round(alloc)?;
    tell_parts(alloc, told, &parts)
}

// Adds whether a histogram is warm, and how many values there are.
fn tell_state(alloc: Global, told: &mut String, half: &Half, id: u32) -> Result<(), Fail> {
    let state = if half.is_warm(MetricId(id)) {
        "warm"
    } else {
        "cold"
    };
    told.push_str(format!(in alloc; "{state} {}", half.weight())?.as_str())?;
    Ok(())
}

fn number(line: &str, at: usize) -> u32 {
    let word = line.split(' ').nth(at).unwrap_or("");
    word.parse::<u32>().unwrap_or(0)
}

// A line of a script, and what it tells: `record ID VALUE` into the one half, `take WORKER`, which takes that half,
// `state ID` of the half, `show ID` of what was taken, and `round`.
fn apply(
    rt: &impl Abort,
    alloc: Global,
    half: &mut Half,
    parents: &mut Parents,
    line: &str,
    told: &mut String,
) -> Result<(), Fail> {
    let id = number(line, 1);
    match line.split(' ').next().unwrap_or("") {
        "record" => record(rt, alloc, half, id, u64::from(number(line, 2))),
        "take" => take(rt, alloc, parents, id, half),
        "state" => tell_state(alloc, told, half, id),
        "show" => show(alloc, told, parents, id),
        _ => next_round(alloc, told, parents),
    }
}

// What the lines of a script tell, each that of one line.
fn played(rt: &impl Abort, alloc: Global, script: &str) -> Result<String, Fail> {
    let mut half = Half::new(alloc);
    let mut parents = Parents::new(alloc);
    let mut told = String::new(alloc);
    for line in script.split('\n') {
        apply(rt, alloc, &mut half, &mut parents, line, &mut told)?;
        told.push('\n')?;
    }
    Ok(told)
}

const WARM: &str = "record 3 5
take 1
state 3
state 2
show 3
round
show 3";

const WARM_TOLD: &str = "\n\nwarm 0\ncold 0\n(50,0) 1 | (50,0) 1 \n1:3 (50,0) 1 \n| (50,0) 1 \n";

#[test]
fn half_stays_warm(rt: HostRuntime) -> Result<(), Fail> {
    let told = played(&rt, rt.alloc(), WARM)?;
    assert_eq!(rt; told.as_str(), WARM_TOLD);
    Ok(())
}

// The half that was taken holds nothing, so its worker has no part in the next round.
const TWO_WORKERS: &str = "record 7 7
take 2
record 7 7
record 7 100
record 0 1
take 1
show 7
round
take 1
round";

const TWO_WORKERS_TOLD: &str =
    "\n\n\n\n\n\n(70,0) 2 (10,2) 1 | (70,0) 2 (10,2) 1 \n1:0 (10,0) 1 1:7 (70,0) 1 (10,2) 1 2:7 (70,0) 1 \n\n\n";

#[test]
fn two_workers(rt: HostRuntime) -> Result<(), Fail> {
    let told = played(&rt, rt.alloc(), TWO_WORKERS)?;
    assert_eq!(rt; told.as_str(), TWO_WORKERS_TOLD);
    Ok(())
}

// How many parts stand at the place that is the number of their histogram.
fn in_place(parts: &[Part]) -> usize {
    parts
        .iter()
        .enumerate()
        .filter(|(i, part)| part.id.0 as usize == *i)
        .count()
}

#[test]
fn a_value_on_each_of_many(rt: HostRuntime) -> Result<(), Fail> {
    let alloc = rt.alloc();
    let mut half = Half::new(alloc);
    for id in 0..1_024 {
        record(&rt, alloc, &mut half, id, u64::from(id))?;
    }
    let mut parents = Parents::new(alloc);
    take(&rt, alloc, &mut parents, 1, &mut half)?;
    let parts = parents.new_round(alloc)?;
    assert_eq!(rt; (parts.len(), in_place(&parts)), (1_024, 1_024));
    Ok(())
}
