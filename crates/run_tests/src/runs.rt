//! Runs of lines in memory, and what stands in their reports.
ghost use Rattle.stat_defs.specs.Configs.{IsConfig};

use boot_file::read;
use name_map::HashKey;
use run_files::{Setup, run_files};
use run_gates::Gate;
use stat_defs::{Config, FlushRecord, MetricId, Part, ReadRecord, Report, Reported};
use stats_io::{MemSource, Source};
use std::alloc::Global;
use std::process::Abort;
use std::sync::Wait;
use std::test::Fail;
use std::thread::Threads;
use tag_rules::{Matcher, RegexMaker, TagRules, config_law};
use worker_run::Given;

/// A file of these lines, given 4,096 bytes a pull. The pulls with these numbers, from 0, fail.
pub(crate) fn file_with_faults(
    alloc: Global,
    lines: &str,
    fails: Vec<u64>,
) -> Result<Given<MemSource>, Fail> {
    let bytes = lines.as_bytes().to_vec(alloc)?;
    let source = MemSource::new(String::new(alloc), bytes, 4096, fails);
    Ok(Given::Opened(source))
}

/// A file of these lines.
pub(crate) fn file_of(alloc: Global, lines: &str) -> Result<Given<MemSource>, Fail> {
    file_with_faults(alloc, lines, Vec::new(alloc))
}

/// A line, repeated this number of times.
pub(crate) fn repeated(alloc: Global, line: &str, times: u32) -> Result<String, Fail> {
    let mut lines = String::new(alloc);
    for _ in 0..times {
        lines.push_str(line)?;
    }
    Ok(lines)
}

/// The report of a run of these files, 1 to 32 of them, under the configuration of a bootstrap.
pub(crate) fn run<R: Threads + Wait + Abort + Sync, G: Gate + Sync, S: Source + Drop + Send>(
    rt: &R,
    alloc: Global,
    gate: &G,
    bootstrap: &str,
    files: Vec<Given<S>>,
) -> Result<Report, Fail> {
    let config = read(alloc, bootstrap.as_bytes())?;
    let report = run_with(rt, alloc, gate, &config, files);
    drop(config);
    report
}

fn run_with<R: Threads + Wait + Abort + Sync, G: Gate + Sync, S: Source + Drop + Send>(
    rt: &R,
    alloc: Global,
    gate: &G,
    config: &Config,
    files: Vec<Given<S>>,
) -> Result<Report, Fail>
    requires { IsConfig config.now }
{
    assert!(rt; 1 <= files.len() && files.len() <= 32);
    config_law();
    let mut maker = RegexMaker::new(Vec::new(alloc));
    let rules = TagRules::build(alloc, &mut maker, config.tags.items())?;
    let matcher = Matcher::build(alloc, &mut maker, &config.matcher)?;
    let setup = Setup {
        key: HashKey::fixed(),
        config,
        rules,
        matcher,
    };
    let Reported { report, names: _ } = run_files(rt, alloc, gate, setup, files)?;
    Ok(report)
}

/// The units of a counter in a flush: 0 where it has no delta.
pub(crate) fn delta_of(flush: &FlushRecord, id: MetricId) -> u64 {
    for delta in flush.deltas.items() {
        if delta.id == id {
            return delta.n;
        }
    }
    0
}

/// A gauge's word in a flush, where that shows it.
pub(crate) fn gauge_of(flush: &FlushRecord, id: MetricId) -> Option<u64> {
    for gauge in flush.gauges.items() {
        if gauge.id == id {
            return Some(gauge.word);
        }
    }
    None
}

/// The units of a counter in all these flushes.
pub(crate) fn units_of(flushes: &[FlushRecord], id: MetricId) -> u64 {
    let mut units = 0u64;
    for flush in flushes {
        units = units.wrapping_add(delta_of(flush, id));
    }
    units
}

fn values_of(part: &Part) -> u64 {
    let mut values = 0u64;
    for bin in part.bins.items() {
        values = values.wrapping_add(bin.count);
    }
    values
}

/// How many values all parts of a flush have.
pub(crate) fn values_in(flush: &FlushRecord) -> u64 {
    let mut values = 0u64;
    for part in flush.parts.items() {
        values = values.wrapping_add(values_of(part));
    }
    values
}

/// How many values all parts of all these flushes have.
pub(crate) fn all_values(flushes: &[FlushRecord]) -> u64 {
    let mut values = 0u64;
    for flush in flushes {
        values = values.wrapping_add(values_in(flush));
    }
    values
}

/// A counter's value in a reading: 0 where it was not read.
pub(crate) fn word_of(reading: &ReadRecord, id: MetricId) -> u64 {
    for counter in reading.counters.items() {
        if counter.id == id {
            return counter.word;
        }
    }
    0
}

/// Whether no reading of a counter is below an earlier one.
pub(crate) fn never_falls(readings: &[ReadRecord], id: MetricId) -> bool {
    let mut last = 0;
    for reading in readings {
        let word = word_of(reading, id);
        if word < last {
            return false;
        }
        last = word;
    }
    true
}
