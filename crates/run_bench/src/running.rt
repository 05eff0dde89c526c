//! Runs, counted or timed.
ghost use Rattle.std.specs.Prelude.{◌≤◌, length};
ghost use Rattle.stat_defs.specs.Configs.{IsConfig};

use crate::files::files_of;
use crate::words::Plan;
use boot_file::read;
use name_map::HashKey;
use run_files::{Setup, run_files};
use run_gates::PaceGate;
use stat_defs::{Config, NoMemory, Report, Reported};
use stats_io::SureSource;
use std::alloc::Global;
use std::io;
use std::io::Print;
use std::sync::Wait;
use std::thread::Threads;
use std::time::{Clock, Duration, Instant};
use tag_rules::{Matcher, RegexMaker, TagRules, config_law};
use worker_run::Given;

// The usual configuration but for its flushes and readings, of which there are as many as a bootstrap may ask for.
fn boot_of(alloc: Global, plan: &Plan) -> Result<String, NoMemory> {
    Ok(format!(in alloc;
        "{{\"stats_run\":{{\"flushes\":{},\"flush_every\":{},\"reads\":{}}}}}",
        plan.flushes,
        plan.flush_every(),
        plan.reads
    )?)
}

// One run of these files: how long it took until its report, and the report.
fn run_timed<R: Threads + Wait + Sync + Clock + AllocGlobal>(
    rt: &R,
    config: &Config,
    gate: &PaceGate,
    files: Vec<Given<SureSource>>,
) -> io::Result<(Duration, Report)>
    requires config { IsConfig config.now }
    requires files { (1 ≤ length files.items) × (length files.items ≤ 32) }
{
    config_law();
    let alloc = rt.alloc();
    let mut maker = RegexMaker::new(Vec::new(alloc));
    let Ok(rules) = TagRules::build(alloc, &mut maker, config.tags.items()) else {
        return Err(no_memory(NoMemory));
    };
    let Ok(matcher) = Matcher::build(alloc, &mut maker, &config.matcher) else {
        drop(rules);
        return Err(no_memory(NoMemory));
    };
    let setup = Setup {
        key: HashKey::fixed(),
        config,
        rules,
        matcher,
    };
    let start = Instant::now(rt)?;
    let Reported { report, names: _ } = run_files(rt, alloc, gate, setup, files).map_err(
        no_memory,
    )?;
    Ok((start.elapsed(rt)?, report))
}

fn run<R: Threads + Wait + Sync + Clock + AllocGlobal>(
    rt: &R,
    config: &Config,
    plan: &Plan,
) -> io::Result<(Duration, Report)>
    requires { IsConfig config.now }
{
    let gate = PaceGate::new(rt.alloc(), plan.workers, config.flush_every).map_err(no_memory)?;
    let files = files_of(rt.alloc(), plan).map_err(no_memory)?;
    if files.is_empty() || files.len() > 32 {
        return Err(io::Error::from(io::ErrorKind::InvalidInput));
    }
    run_timed(rt, config, &gate, files)
}

fn run_plan<R: Threads + Wait + Sync + Clock + AllocGlobal>(
    rt: &R,
    plan: &Plan,
) -> io::Result<(Duration, Report)> {
    let text = boot_of(rt.alloc(), plan).map_err(no_memory)?;
    match read(rt.alloc(), text.as_bytes()) {
        Ok(config) => {
            let ran = run(rt, &config, plan);
            drop(config);
            ran
        }
        Err(_) => Err(io::Error::from(io::ErrorKind::InvalidInput)),
    }
}

// How many events have a verdict.
fn decided(report: &Report) -> u64 {
    let mut count = 0u64;
    for verdicts in report.verdicts.items() {
        count = count.wrapping_add(verdicts.items().len() as u64);
    }
    count
}

/// Prints what a run made, its events, its flushes without the last and its readings, and where it is timed its time.
pub(crate) fn tell<R: Threads + Wait + Sync + Clock + Print + AllocGlobal>(
    rt: &R,
    plan: &Plan,
    timed: bool,
) -> io::Result<()> {
    let (time, report) = run_plan(rt, plan)?;
    let events = decided(&report);
    let flushes = report.flushes.items().len().saturating_sub(1);
    let reads = report.reads.items().len();
    let names = if plan.own { "own" } else { "same" };
    println!(rt; "{names} names: {events} events, {flushes} flushes, {reads} readings")?;
    if timed {
        return println!(rt; "run: {} ns", time.as_nanos());
    }
    Ok(())
}

fn no_memory(_: NoMemory) -> io::Error {
    io::Error::from(io::ErrorKind::OutOfMemory)
}
