//! The last words of the counters and of the gauges.
ghost use Rattle.std.specs.Prelude.{◌≡◌, ◌+◌, ◌++◌, ◌∷◌, [], ℕ, List, length, map, flat_map, All, IfOk};
ghost use Rattle.std.specs.List.{AllByRecursion};
ghost use Rattle.metric_words.specs.declared.gauge_view.GaugePart.{GaugePart};
ghost use Rattle.metric_words.specs.CounterLedger.{bank_id, size_of, workers_of, worker_part, flush_known, read_known, AreAll};
ghost use Rattle.metric_words.specs.Gauges.{written};
ghost use Rattle.metric_words.specs.GaugeLedger.{gauges_id, gauges_size, gauge_known, gauge_all};
ghost use Rattle.book_state.specs.declared.limits.TheConstants.{MAX_METRICS};
ghost use Rattle.locked_book.specs.Lists.{AreMetrics};
ghost use Rattle.ledger.specs.Flushes.{id_of_delta, id_of_reading};
ghost use Rattle.run_ledger.specs.Accounts.{LeftBy};
ghost use Rattle.store_closing.specs.Pieces.{EndsCounters};

use flush_words::{close_counters, load_last, take_gauges};
use metric_words::{CounterBank, GaugeBank, GaugeSeat, WordSeats};
use stat_defs::{Delta, MetricId, NoMemory, Reading};
use std::alloc::Global;

/// Takes all workers' seats in, latches each of these counters once, in order, and closes the bank.
pub(crate) fn last_deltas(
    alloc: Global,
    bank: CounterBank,
    seats: WordSeats,
    ids: &[MetricId],
) -> Result<Vec<Delta>, NoMemory>
    requires size { size_of bank ≡ MAX_METRICS }
    requires all { AreAll (bank_id bank) (workers_of bank) seats }
    requires flusher { ((flush_known seats.flusher).own.workers ≡ workers_of bank)
        × ((flush_known seats.flusher).taken ≡ []) }
    requires ids { AreMetrics ids.now }
    ensures ids { IfOk result (λ deltas. map id_of_delta deltas.items ≡ ids.now) }
    ensures ends { IfOk result (λ deltas. EndsCounters (map worker_part seats.workers.items)
        (flush_known seats.flusher) (read_known seats.reader) deltas.items) }
{
    let ends = close_counters(alloc, bank, seats, ids)?;
    Ok(ends.deltas)
}

/// Takes all other seats in, and loads each of these gauges once, in order.
pub(crate) fn last_readings(
    alloc: Global,
    bank: GaugeBank,
    mut seat: GaugeSeat,
    others: Vec<GaugeSeat>,
    ids: &[MetricId],
) -> Result<Vec<Reading>, NoMemory>
    requires size { gauges_size bank ≡ MAX_METRICS }
    requires bank { (gauge_known seat).bank ≡ gauges_id bank }
    requires others { All (λ s. (gauge_known s).bank ≡ gauges_id bank) others.items }
    requires alone { (gauge_known seat).taken ≡ [] }
    requires whole { length (flat_map gauge_all others.items) ≡ (gauge_known seat).own.workers + 1 }
    requires ids { AreMetrics ids.now }
    ensures ids { IfOk result (λ list. map id_of_reading list.items ≡ ids.now) }
    ensures words { (workers : List GaugePart) (reader : GaugePart)
        → flat_map gauge_all others.items ≡ workers ++ reader ∷ []
        → ((id : ℕ) → (written id (gauge_known seat).own.steps ≡ 0)) → ((id : ℕ) → (written id reader.steps ≡ 0))
        → IfOk result (λ list. AllByRecursion (λ r. LeftBy r.id.0 workers r.word) list.items) }
{
    take_gauges(&bank, &mut seat, others);
    load_last(alloc, &bank, &mut seat, ids)
}
