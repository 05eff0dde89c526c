//! Flushes with no events in between.
ghost use Rattle.std.specs.Prelude.{◌≡◌, ◌+◌, OnOk, length};
ghost use Rattle.stat_defs.specs.declared.reports.FlushRecord.{FlushRecord as FlushOf};
ghost use Rattle.plain_store.specs.Store.{Flushes};
ghost use Rattle.library_examples.specs.Counting.{AreFlushes, Stays};

use plain_store::PlainStore;
use stat_defs::{FlushRecord, NoMemory};
use std::alloc::Global;

// Flushes, and puts the record behind those of the earlier flushes.
fn flush_once(
    alloc: Global,
    store: &mut PlainStore,
    flushes: &mut Vec<FlushRecord>,
) -> Result<(), NoMemory>
    requires { flushes.old.items ≡ store.old.flushes }
    ensures flushes { OnOk result (flushes.new.items ≡ store.new.flushes) }
    ensures flushed { OnOk result ((flush : FlushOf) × Flushes store.old flush store.new) }
    ensures kept { OnOk result (Stays store.old store.new) }
    ensures one_more { OnOk result (length flushes.new.items ≡ length flushes.old.items + 1) }
{
    let flush = store.flush(alloc)?;
    flushes.push(flush)?;
    Ok(())
}

/// Flushes so many times. The records come behind those of the earlier flushes.
pub fn flush_often(
    alloc: Global,
    store: &mut PlainStore,
    times: u32,
    flushes: &mut Vec<FlushRecord>,
) -> Result<(), NoMemory>
    requires { flushes.old.items ≡ store.old.flushes }
    ensures flushes { OnOk result (flushes.new.items ≡ store.new.flushes) }
    ensures often { OnOk result (AreFlushes times store.old store.new) }
    ensures kept { OnOk result (Stays store.old store.new) }
    ensures more { OnOk result (length flushes.new.items ≡ length flushes.old.items + times) }
{
    for _done in 0..times {
        flush_once(alloc, store, flushes)?;
    }
    Ok(())
}
