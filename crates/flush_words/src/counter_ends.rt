//! The end of the counters.
ghost use Rattle.std.specs.Prelude.{◌≡◌, ◌<◌, [], map, All, IfOk};
ghost use Rattle.metric_words.specs.Known.{with_parts};
ghost use Rattle.metric_words.specs.CounterLedger.{bank_id, size_of, workers_of, worker_known, worker_part, flush_known, AreAll};
ghost use Rattle.flush_words.specs.Ends.{CountersEnd};

use crate::latching::latch_into;
use metric_words::{CounterBank, CounterClose, FlushSeat, WordSeats, WorkerSeat};
use stat_defs::{Delta, MetricId, NoMemory};
use std::alloc::Global;

/// The last deltas, and the last words of all counters.
#[derive(Drop)]
pub struct CounterEnds {
    pub deltas: Vec<Delta>,
    pub words: CounterClose,
}

/// The workers' seats go into the flusher's, in order.
pub fn take_workers(bank: &CounterBank, flush: &mut FlushSeat, workers: Vec<WorkerSeat>)
    requires bank { (flush_known flush.old).bank ≡ bank_id bank.now }
    requires workers { All (λ w. (worker_known w).bank ≡ bank_id bank.now) workers.items }
    ensures { flush_known flush.new ≡ with_parts (map worker_part workers.items) (flush_known flush.old) }
{
    for worker in workers {
        bank.take_in(flush, worker);
    }
}

/// Takes the workers' seats in, latches each of these counters once, in order, and closes the bank. Where there is no
/// memory, bank and seats are gone.
pub fn close_counters(
    alloc: Global,
    bank: CounterBank,
    seats: WordSeats,
    ids: &[MetricId],
) -> Result<CounterEnds, NoMemory>
    requires all { AreAll (bank_id bank) (workers_of bank) seats }
    requires flusher { ((flush_known seats.flusher).own.workers ≡ workers_of bank)
        × ((flush_known seats.flusher).taken ≡ []) }
    requires ids { All (λ id. id.0 < size_of bank) ids.now }
    ensures { IfOk result (λ ends. CountersEnd (size_of bank) seats ids.now ends) }
{
    let mut deltas = Vec::with_capacity(alloc, ids.len())?;
    let WordSeats {
        workers,
        flusher: mut flush,
        reader,
    } = seats;
    take_workers(&bank, &mut flush, workers);
    latch_into(&bank, &mut flush, ids, &mut deltas);
    let seats = WordSeats {
        workers: Vec::new(alloc),
        flusher: flush,
        reader,
    };
    let words = bank.close(alloc, seats)?;
    Ok(CounterEnds { deltas, words })
}
