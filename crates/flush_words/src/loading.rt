//! Loads of lists of counters and of gauges.
ghost use Rattle.std.specs.Prelude.{◌≡◌, ◌<◌, ◌≤◌, [], length, map, All, vec_capacity};
ghost use Rattle.metric_words.specs.CounterLedger.{bank_id, size_of, read_known};
ghost use Rattle.metric_words.specs.GaugeLedger.{gauges_id, gauges_size, gauge_known};
ghost use Rattle.flush_words.specs.Words.{after_loads, after_gauge_loads};

use metric_words::{CounterBank, GaugeBank, GaugeSeat, ReadSeat};
use stat_defs::{MetricId, Reading};

/// Loads each of these gauges once, in order, into an empty list that has room for them.
pub fn load_into(
    bank: &GaugeBank,
    seat: &mut GaugeSeat,
    ids: &[MetricId],
    readings: &mut Vec<Reading>,
)
    requires bank { (gauge_known seat.old).bank ≡ gauges_id bank.now }
    requires ids { All (λ id. id.0 < gauges_size bank.now) ids.now }
    requires room { (readings.old.items ≡ []) × (length ids.now ≤ vec_capacity readings.old) }
    ensures known { gauge_known seat.new ≡ after_gauge_loads readings.new.items (gauge_known seat.old) }
    ensures ids { map (λ r. r.id) readings.new.items ≡ ids.now }
{
    for id in ids {
        let word = bank.value(seat, *id);
        readings.push_reserved(Reading { id: *id, word });
    }
}

/// Loads the value of each of these counters once, in order, into an empty list that has room for them.
pub fn read_into(
    bank: &CounterBank,
    seat: &mut ReadSeat,
    ids: &[MetricId],
    readings: &mut Vec<Reading>,
)
    requires bank { (read_known seat.old).bank ≡ bank_id bank.now }
    requires ids { All (λ id. id.0 < size_of bank.now) ids.now }
    requires room { (readings.old.items ≡ []) × (length ids.now ≤ vec_capacity readings.old) }
    ensures known { read_known seat.new ≡ after_loads readings.new.items (read_known seat.old) }
    ensures ids { map (λ r. r.id) readings.new.items ≡ ids.now }
{
    for id in ids {
        let value = bank.value(seat, *id);
        readings.push_reserved(Reading {
            id: *id,
            word: value,
        });
    }
}
