//! The end of a store of one worker.
ghost use Rattle.std.specs.Prelude.{IfOk};
ghost use Rattle.recorder.specs.Tied.{IsWorkerOf};
ghost use Rattle.store_closing.specs.Closes.{HaveEnded};
ghost use Rattle.refusal_tests.specs.Standing.{AreParties};

use crate::parties::Parties;
use recorder::{Ended, Recorder};
use stat_defs::{Call, Entry, FlushRecord, LastFlush};
use std::alloc::Global;
use std::sync::Wait;
use std::test::Fail;
use store_closing::close_store;
use store_parts::Store;

// What the one worker leaves at its end.
fn all_ended<R: Wait>(
    rt: &R,
    alloc: Global,
    store: &Store,
    recorder: Recorder,
) -> Result<Vec<Ended>, Fail>
    requires { IsWorkerOf store.now 1 recorder }
    ensures { IfOk result (λ ended. HaveEnded store.now ended.items) }
{
    let ended = recorder.end(rt, alloc, store)?;
    if store.cells.len() != 1 {
        drop(ended);
        return Err("more workers than one")?;
    }
    Ok(vec![in alloc; ended]?)
}

/// Ends the worker and the store, and gives the last flush and the log.
pub(crate) fn closed<R: Wait>(rt: &R, alloc: Global, parties: Parties) -> Result<LastFlush, Fail>
    requires { AreParties parties }
{
    let Parties {
        store,
        recorder,
        flusher,
        admin,
    } = parties;
    match all_ended(rt, alloc, &store, recorder) {
        Ok(ended) => Ok(close_store(alloc, store, ended, flusher, admin)?),
        Err(fail) => {
            drop(store);
            drop(flusher);
            drop(admin);
            Err(fail)
        }
    }
}

/// The units of all counters, and the values of all histograms.
pub(crate) fn sums_in(flush: &FlushRecord) -> (u64, u64) {
    let mut units = 0u64;
    for delta in flush.deltas.items() {
        units = units.wrapping_add(delta.n);
    }
    let mut values = 0u64;
    for part in flush.parts.items() {
        for bin in part.bins.items() {
            values = values.wrapping_add(bin.count);
        }
    }
    (units, values)
}

/// The units of the counters of this name.
pub(crate) fn units_of(end: &LastFlush, name: &[u8]) -> u64 {
    let metrics = end.names.metrics.items();
    let mut units = 0u64;
    for delta in end.last.deltas.items() {
        if let Some(metric) = metrics.get(delta.id.0 as usize) {
            if metric.name.bytes() == name {
                units = units.wrapping_add(delta.n);
            }
        }
    }
    units
}

/// The number of finds.
pub(crate) fn finds_in(log: &[Entry]) -> usize {
    let mut finds = 0usize;
    for entry in log {
        if matches!(&entry.call, Call::Find { .. }) {
            finds = finds.wrapping_add(1);
        }
    }
    finds
}
