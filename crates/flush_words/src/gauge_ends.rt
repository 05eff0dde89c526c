//! The end of the gauges.
ghost use Rattle.std.specs.Prelude.{◌≡◌, ◌+◌, ◌<◌, length, map, flat_map, All, IfOk, OnErr};
ghost use Rattle.metric_words.specs.Known.{with_parts};
ghost use Rattle.metric_words.specs.GaugeLedger.{gauges_id, gauges_size, gauge_known, gauge_all};
ghost use Rattle.flush_words.specs.Words.{after_gauge_loads};
ghost use Rattle.flush_words.specs.Ends.{IsLastWord};

use metric_words::{GaugeBank, GaugeSeat};
use stat_defs::{MetricId, NoMemory, Reading};
use std::alloc::Global;

/// The other seats go into the flusher's, in order.
pub fn take_gauges(bank: &GaugeBank, seat: &mut GaugeSeat, others: Vec<GaugeSeat>)
    requires bank { (gauge_known seat.old).bank ≡ gauges_id bank.now }
    requires others { All (λ s. (gauge_known s).bank ≡ gauges_id bank.now) others.items }
    ensures { gauge_known seat.new ≡ with_parts (flat_map gauge_all others.items) (gauge_known seat.old) }
{
    for other in others {
        bank.take_in(seat, other);
    }
}

/// Loads each of these gauges once, in order, by a seat that has taken in all others: each word is what all steps left.
/// After want of memory the seat is as it was.
pub fn load_last(
    alloc: Global,
    bank: &GaugeBank,
    seat: &mut GaugeSeat,
    ids: &[MetricId],
) -> Result<Vec<Reading>, NoMemory>
    requires bank { (gauge_known seat.old).bank ≡ gauges_id bank.now }
    requires ids { All (λ id. id.0 < gauges_size bank.now) ids.now }
    requires whole { length (gauge_known seat.old).taken ≡ (gauge_known seat.old).own.workers + 1 }
    ensures known { IfOk result (λ list. gauge_known seat.new ≡ after_gauge_loads list.items (gauge_known seat.old)) }
    ensures ids { IfOk result (λ list. map (λ r. r.id) list.items ≡ ids.now) }
    ensures words { IfOk result (λ list. All (IsLastWord (gauge_known seat.old)) list.items) }
    ensures err { OnErr result (seat.new ≡ seat.old) }
{
    let mut readings = Vec::with_capacity(alloc, ids.len())?;
    for id in ids {
        let word = bank.value(seat, *id);
        readings.push_reserved(Reading { id: *id, word });
    }
    Ok(readings)
}
