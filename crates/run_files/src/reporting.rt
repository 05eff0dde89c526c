//! The report of a run.
ghost use Rattle.std.specs.Prelude.{IfOk};
ghost use Rattle.store_closing.specs.Closes.{HaveEnded};
ghost use Rattle.run_files.specs.Flushes.{HasFlushed};
ghost use Rattle.run_files.specs.Readings.{HasRead};
ghost use Rattle.run_files.specs.Reporting.{Reports};

use crate::returning::Returned;
use stat_defs::{LastFlush, List, NoMemory, Report, Reported};
use std::alloc::Global;
use store_closing::close_store;
use store_parts::Store;

/// Closes the store, and puts the report together.
pub(crate) fn report_of(alloc: Global, store: Store, done: Returned) -> Result<Reported, NoMemory>
    requires workers { HaveEnded store done.gathered.ended.items }
    requires flusher { HasFlushed store done.flushings.records.items done.flushings.flusher }
    requires reader { HasRead store done.readings.records.items done.readings.admin }
    ensures { IfOk result (Reports store done) }
{
    let Returned {
        flushings,
        readings,
        gathered,
    } = done;
    let LastFlush { last, log, names } = close_store(
        alloc,
        store,
        gathered.ended,
        flushings.flusher,
        readings.admin,
    )?;
    let mut flushes = flushings.records;
    flushes.push(last)?;
    let report = Report {
        verdicts: List::of(gathered.verdicts),
        flushes: List::of(flushes),
        log,
        reads: List::of(readings.records),
        ends: List::of(gathered.ends),
    };
    Ok(Reported { report, names })
}
