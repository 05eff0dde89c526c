//! Latches of a list of counters.
ghost use Rattle.std.specs.Prelude.{◌≡◌, ◌<◌, ◌≤◌, [], length, map, All, vec_capacity};
ghost use Rattle.metric_words.specs.CounterLedger.{bank_id, size_of, flush_known, LatchedAll};
ghost use Rattle.flush_words.specs.Words.{after_latches};

use metric_words::{CounterBank, FlushSeat};
use stat_defs::{Delta, MetricId};

/// Latches each of these counters once, in order, into an empty list that has room for them.
pub fn latch_into(
    bank: &CounterBank,
    flush: &mut FlushSeat,
    ids: &[MetricId],
    deltas: &mut Vec<Delta>,
)
    requires bank { (flush_known flush.old).bank ≡ bank_id bank.now }
    requires ids { All (λ id. id.0 < size_of bank.now) ids.now }
    requires room { (deltas.old.items ≡ []) × (length ids.now ≤ vec_capacity deltas.old) }
    ensures known { flush_known flush.new ≡ after_latches deltas.new.items (flush_known flush.old) }
    ensures ids { map (λ d. d.id) deltas.new.items ≡ ids.now }
    // where the seat has taken in all workers, the latches of each are all units that were accepted
    ensures whole { All (λ d. LatchedAll d.id.0 (flush_known flush.new)) deltas.new.items }
{
    for id in ids {
        let n = bank.latch(flush, *id);
        deltas.push_reserved(Delta { id: *id, n });
    }
}
