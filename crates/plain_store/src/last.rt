//! The last flush.
ghost use Rattle.std.specs.Prelude.{◌≡◌, ◌≤◌, ◌<◌, ◌+◌, true, false, All, IfOk, OnOk, length, filter};
ghost use Rattle.stat_defs.specs.declared.ids.Kind.TheVariants.{Counter, Gauge};
ghost use Rattle.ledger.specs.Flushes.{ids_made};
ghost use Rattle.loglinear_bins.specs.declared.place.TheConstants.{MAX_COUNT};
ghost use Rattle.stat_defs.specs.declared.history.Call.TheVariants as call;
ghost use Rattle.stat_defs.specs.declared.history.Reply.TheVariants as reply;
ghost use Rattle.stat_book.specs.Calls.{state_of, Logged};
ghost use Rattle.stat_book.specs.NameChanges.{names_of};
ghost use Rattle.plain_store.specs.Sums.{is_of_kind, value_count, Shows, SweepsLast, Ends, EndsWith};

use crate::lists::all_made;
use crate::record::take_flush;
use crate::sums::Sums;
use crate::worker::LoneWorker;
use stat_book::BookParts;
use stat_defs::{FlushRecord, LastFlush, List, MetricId, NoMemory};
use std::alloc::Global;

// Ends the seat, and gives the number of entries of the log.
fn end_seat(alloc: Global, worker: &mut LoneWorker) -> Result<u64, NoMemory>
    requires { worker.old.ended ≡ false }
    ensures step { OnOk result (Logged worker.old.book 1 call.End reply.Ended worker.new.book) }
    ensures rest { OnOk result (worker.new ≡ record worker.old { book = worker.new.book; ended = true }) }
    ensures at { IfOk result (λ at. at ≡ length worker.new.book.log) }
    ensures one_worker { OnOk result (worker.new.book.workers ≡ 1) }
{
    worker.end(alloc)?;
    Ok(worker.log().len() as u64)
}

// The record of the last flush, behind its sweep.
fn take_all(
    alloc: Global,
    worker: &LoneWorker,
    sums: &mut Sums,
    at: u64,
    list: &[MetricId],
) -> Result<FlushRecord, NoMemory>
    requires within { All (λ id. id.0 < length (state_of worker.now.book).metrics) list.now }
    requires few { value_count sums.old ≤ MAX_COUNT }
    ensures { let s = state_of worker.now.book in
        IfOk result (λ flush. Shows sums.old at (ids_made Counter s) (filter (is_of_kind Gauge s) list.now) flush) }
{
    let made = all_made(alloc, worker)?;
    take_flush(alloc, sums, worker, at, &made, list)
}

// The last sweep, and the record of its flush.
fn take_last(
    alloc: Global,
    worker: &mut LoneWorker,
    sums: &mut Sums,
    at: u64,
) -> Result<FlushRecord, NoMemory>
    requires { value_count sums.old ≤ MAX_COUNT }
    ensures swept { IfOk result (λ flush. SweepsLast worker.old.book sums.old at worker.new.book flush) }
    ensures rest { OnOk result (worker.new ≡ record worker.old { book = worker.new.book }) }
{
    let swept = worker.sweep(alloc)?;
    let list = swept.list.items();
    take_all(alloc, worker, sums, at, list)
}

// The end of the seat, and the record of the last flush.
fn end_all(alloc: Global, worker: &mut LoneWorker, sums: &mut Sums) -> Result<FlushRecord, NoMemory>
    requires works { worker.old.ended ≡ false }
    requires few { value_count sums.old ≤ MAX_COUNT }
    ensures { IfOk result (λ flush. Ends worker.old sums.old worker.new flush) }
{
    let at = end_seat(alloc, worker)?;
    let flush = take_last(alloc, worker, sums, at)?;
    worker.log_is_followed();
    Ok(flush)
}

// The record with what the book of a worker leaves that is done.
fn with_parts(alloc: Global, worker: LoneWorker, last: FlushRecord) -> Result<LastFlush, NoMemory>
    ensures last { IfOk result (λ given. given.last ≡ last) }
    ensures log { IfOk result (λ given. given.log ≡ worker.book.log) }
    ensures names { IfOk result (λ given. given.names ≡ names_of worker.book) }
{
    let BookParts { log, names } = worker.into_parts(alloc)?;
    Ok(LastFlush {
        last,
        log: List::of(log),
        names,
    })
}

/// The last flush of a worker and its sums, with the log of its book and the names in it.
pub(crate) fn finish_parts(
    alloc: Global,
    worker: LoneWorker,
    sums: Sums,
) -> Result<LastFlush, NoMemory>
    requires works { worker.ended ≡ false }
    requires few { value_count sums ≤ MAX_COUNT }
    ensures { IfOk result (λ given. EndsWith worker sums given) }
{
    let mut worker = worker;
    let mut sums = sums;
    match end_all(alloc, &mut worker, &mut sums) {
        Ok(last) => with_parts(alloc, worker, last),
        Err(no_memory) => Err(no_memory),
    }
}
