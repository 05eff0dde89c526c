//! The steps of a gauge bank. None takes memory, waits or refuses.
ghost use Rattle.std.specs.Prelude.{◌≡◌, ℕ, ◌<◌};
ghost use Rattle.metric_words.specs.declared.gauge_view.GaugeKind.TheVariants.{Add, Sub, Set, Load};
ghost use Rattle.metric_words.specs.Gauges.{gauge_step};
ghost use Rattle.metric_words.specs.Known.{with_parts};
ghost use Rattle.metric_words.specs.GaugeLedger.{gauges_id, gauges_size, gauge_known, gauge_all};
ghost use Rattle.metric_words.specs.GaugeLedger.{after_gauge_step, ReadsAll};

use crate::gauge_bank::GaugeBank;
use crate::gauge_plays::{Adding, Reading, Setting, Subtracting};
use crate::gauge_seats::GaugeSeat;
use crate::limits::LINE_WORDS;
use seat_parts::Merge;
use stat_defs::MetricId;

impl GaugeBank {
    /// Adds `n`, modulo 2^64, by one atomic add.
    #[inline(always)]
    pub fn add(&self, seat: &mut GaugeSeat, id: MetricId, n: u64)
        requires bank { (gauge_known seat.old).bank ≡ gauges_id self.now }
        requires id { id.0 < gauges_size self.now }
        ensures { (x : ℕ)
            × (gauge_known seat.new ≡ after_gauge_step (gauge_step Add id.0 n x) (gauge_known seat.old)) }
    {
        let shared = &self.table.shared;
        shared.fetch_add::<Adding>(&mut seat.seat, LINE_WORDS * id.0 as usize, n);
    }

    /// Subtracts `n`, modulo 2^64, by one atomic subtraction.
    #[inline(always)]
    pub fn sub(&self, seat: &mut GaugeSeat, id: MetricId, n: u64)
        requires bank { (gauge_known seat.old).bank ≡ gauges_id self.now }
        requires id { id.0 < gauges_size self.now }
        ensures { (x : ℕ)
            × (gauge_known seat.new ≡ after_gauge_step (gauge_step Sub id.0 n x) (gauge_known seat.old)) }
    {
        let shared = &self.table.shared;
        shared.fetch_sub::<Subtracting>(&mut seat.seat, LINE_WORDS * id.0 as usize, n);
    }

    /// Stores `n` by one atomic swap, and gives the word that it displaced.
    #[inline(always)]
    pub fn set(&self, seat: &mut GaugeSeat, id: MetricId, n: u64) -> u64
        requires bank { (gauge_known seat.old).bank ≡ gauges_id self.now }
        requires id { id.0 < gauges_size self.now }
        ensures { gauge_known seat.new ≡ after_gauge_step (gauge_step Set id.0 n result) (gauge_known seat.old) }
    {
        let shared = &self.table.shared;
        shared.swap::<Setting>(&mut seat.seat, LINE_WORDS * id.0 as usize, n)
    }

    /// Reads the gauge by one atomic load.
    pub fn value(&self, seat: &mut GaugeSeat, id: MetricId) -> u64
        requires bank { (gauge_known seat.old).bank ≡ gauges_id self.now }
        requires id { id.0 < gauges_size self.now }
        ensures known { gauge_known seat.new
            ≡ after_gauge_step (gauge_step Load id.0 0 result) (gauge_known seat.old) }
        ensures whole { ReadsAll id.0 (gauge_known seat.old) result }
    {
        let shared = &self.table.shared;
        shared.load::<Reading>(&mut seat.seat, LINE_WORDS * id.0 as usize)
    }

    /// Joins another seat into a seat, which keeps its list under its number, behind those of the seats that it
    /// took in before.
    pub fn take_in(&self, seat: &mut GaugeSeat, other: GaugeSeat)
        requires seat { (gauge_known seat.old).bank ≡ gauges_id self.now }
        requires other { (gauge_known other).bank ≡ gauges_id self.now }
        ensures { gauge_known seat.new ≡ with_parts (gauge_all other) (gauge_known seat.old) }
    {
        let GaugeSeat { seat: joined } = other;
        self.table.shared.join_seat::<Merge>(&mut seat.seat, joined);
    }
}
