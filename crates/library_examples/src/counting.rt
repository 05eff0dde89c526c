//! Stores that count.
ghost use Rattle.std.specs.Prelude.{◌≡◌, ◌≤◌, ◌<◌, ◌+◌, ◌*◌, IfOk, IfErr, OnOk, length};
ghost use Rattle.stat_defs.specs.Configs.{IsConfig};
ghost use Rattle.stat_defs.specs.Events.{IsLawfulEvent};
ghost use Rattle.event_script.specs.declared.limits.TheConstants as file;
ghost use Rattle.flush_view.specs.Showing.{IsShowable};
ghost use Rattle.plain_store.specs.declared.worker.TheConstants as worker;
ghost use Rattle.plain_store.specs.Store.{new_store};
ghost use Rattle.tag_rules.specs.Unbuilt.{HasNoStore};
ghost use Rattle.library_examples.specs.Counting.{CountsTwice, CountsLines, CountsInTurn, CountsOften};
ghost use Rattle.library_examples.specs.Counting.{AreFlushedOften, Stays};

use crate::flushing::flush_often;
use crate::reading::{apply_lines, flush_in_turn};
use plain_store::PlainStore;
use stat_defs::{Config, Event, FlushRecord, NoMemory, Report};
use stats_io::Source;
use std::alloc::Global;
use tag_rules::TagFault;

// Applies an event twice, and flushes.
fn apply_twice(
    alloc: Global,
    store: &mut PlainStore,
    event: &Event,
) -> Result<FlushRecord, NoMemory>
    requires lawful { IsLawfulEvent event.now }
    requires few { length store.old.worker.events + 1 < worker.MAX_EVENTS }
    ensures { IfOk result (λ flush. CountsTwice store.old event.now flush) }
{
    store.apply(alloc, event)?;
    store.apply(alloc, event)?;
    Ok(store.flush(alloc)?)
}

/// Applies an event twice to a new store, and flushes: the record of the flush. It has a delta for each counter and a
/// reading for each gauge that was made, and a part for each histogram with a value.
pub fn count_twice(alloc: Global, config: &Config, event: &Event) -> Result<FlushRecord, TagFault>
    requires config { IsConfig config.now }
    requires event { IsLawfulEvent event.now }
    ensures counted { IfOk result (λ flush. CountsTwice (new_store config.now) event.now flush) }
    ensures refused { IfErr result (λ fault. HasNoStore config.now fault) }
{
    let mut store = PlainStore::build(alloc, config)?;
    let flush = apply_twice(alloc, &mut store, event);
    drop(store);
    Ok(flush?)
}

/// Applies the events of a source's lines to a new store, and finishes it: the report of its one flush. It has no
/// verdicts, and does not say how the source ended.
pub fn count_lines<S: Source + Drop>(
    alloc: Global,
    config: &Config,
    source: S,
) -> Result<Report, TagFault>
    requires { IsConfig config.now }
    ensures counted { IfOk result (λ report. CountsLines S.state source config.now report) }
    ensures showable { IfOk result (λ report. IsShowable config.now report) }
    ensures refused { IfErr result (λ fault. HasNoStore config.now fault) }
{
    let mut store = PlainStore::build(alloc, config)?;
    match apply_lines(alloc, source, &mut store) {
        Ok(_lines) => Ok(store.finish_report(alloc, Vec::new(alloc))?),
        Err(fault) => {
            drop(store);
            Err(TagFault::from(fault))
        }
    }
}

/// Applies the events of each source's lines in turn to a new store, flushes behind each source, and finishes the
/// store: the report of its flushes, of which the last has nothing that is new. It has no verdicts.
pub fn count_in_turn<S: Source + Drop>(
    alloc: Global,
    config: &Config,
    sources: Vec<S>,
) -> Result<Report, TagFault>
    requires config { IsConfig config.now }
    requires few { length sources.items * file.MAX_EVENTS ≤ worker.MAX_EVENTS }
    ensures counted { IfOk result (λ report. CountsInTurn S.state sources.items config.now report) }
    ensures showable { IfOk result (λ report. IsShowable config.now report) }
    ensures flushes { IfOk result (λ report. length report.flushes ≡ length sources.items + 1) }
    ensures refused { IfErr result (λ fault. HasNoStore config.now fault) }
{
    let mut store = PlainStore::build(alloc, config)?;
    let mut flushes = Vec::new(alloc);
    match flush_in_turn(alloc, sources, &mut store, &mut flushes) {
        Ok(()) => Ok(store.finish_report(alloc, flushes)?),
        Err(fault) => {
            drop(store);
            Err(TagFault::from(fault))
        }
    }
}

// Applies the events of a source's lines, and flushes so many times.
fn flush_after_lines<S: Source + Drop>(
    alloc: Global,
    source: S,
    store: &mut PlainStore,
    flushes: u32,
    records: &mut Vec<FlushRecord>,
) -> Result<(), NoMemory>
    requires room { length store.old.worker.events + file.MAX_EVENTS ≤ worker.MAX_EVENTS }
    requires flushes { records.old.items ≡ store.old.flushes }
    ensures flushes { OnOk result (records.new.items ≡ store.new.flushes) }
    ensures counted { OnOk result (AreFlushedOften S.state source flushes store.old store.new) }
    ensures kept { OnOk result (Stays store.old store.new) }
    ensures more { OnOk result (length records.new.items ≡ length records.old.items + flushes) }
{
    apply_lines(alloc, source, store)?;
    flush_often(alloc, store, flushes, records)?;
    Ok(())
}

/// Applies the events of a source's lines to a new store, flushes so many times with nothing new in between, and
/// finishes the store: the report of its flushes, one more than those. It has no verdicts.
pub fn count_often<S: Source + Drop>(
    alloc: Global,
    config: &Config,
    source: S,
    flushes: u32,
) -> Result<Report, TagFault>
    requires { IsConfig config.now }
    ensures counted { IfOk result (λ report. CountsOften S.state source flushes config.now report) }
    ensures showable { IfOk result (λ report. IsShowable config.now report) }
    ensures flushes { IfOk result (λ report. length report.flushes ≡ flushes + 1) }
    ensures refused { IfErr result (λ fault. HasNoStore config.now fault) }
{
    let mut store = PlainStore::build(alloc, config)?;
    let mut records = Vec::new(alloc);
    match flush_after_lines(alloc, source, &mut store, flushes, &mut records) {
        Ok(()) => Ok(store.finish_report(alloc, records)?),
        Err(fault) => {
            drop(store);
            Err(TagFault::from(fault))
        }
    }
}
