//! The reader's seats of the words.
ghost use Rattle.std.specs.Prelude.{◌≡◌, ◌≤◌, IfOk, OnErr};
ghost use Rattle.book_state.specs.declared.limits.TheConstants.{MAX_METRICS};
ghost use Rattle.metric_words.specs.CounterLedger.{bank_id, size_of, read_known};
ghost use Rattle.metric_words.specs.GaugeLedger.{gauges_id, gauges_size, gauge_known};
ghost use Rattle.flush_words.specs.Words.{after_loads, after_gauge_loads};
ghost use Rattle.admin_side.specs.Shown.{Shows};

use crate::known_names::KnownNames;
use flush_words::{load_into, read_into};
use metric_words::{CounterBank, GaugeBank, GaugeSeat, ReadSeat};
use stat_defs::{List, NoMemory, ReadRecord};
use std::alloc::Global;

/// The reader's seat of the counters, and that of the gauges.
#[derive(Drop)]
pub struct ReadWords {
    pub counters: ReadSeat,
    pub gauges: GaugeSeat,
}

impl ReadWords {
    /// One load of each counter and of each gauge that is not gone by these names. The memory is taken before the first load.
    pub fn read(
        &mut self,
        alloc: Global,
        counters: &CounterBank,
        gauges: &GaugeBank,
        names: &KnownNames,
    ) -> Result<ReadRecord, NoMemory>
        requires banks { ((read_known self.old.counters).bank ≡ bank_id counters.now)
            × ((gauge_known self.old.gauges).bank ≡ gauges_id gauges.now) }
        requires sizes { (MAX_METRICS ≤ size_of counters.now) × (MAX_METRICS ≤ gauges_size gauges.now) }
        ensures shows { IfOk result (λ shown. Shows names.now shown) }
        ensures counters { IfOk result (λ shown.
            read_known self.new.counters ≡ after_loads shown.counters (read_known self.old.counters)) }
        ensures gauges { IfOk result (λ shown.
            gauge_known self.new.gauges ≡ after_gauge_loads shown.gauges (gauge_known self.old.gauges)) }
        ensures err { OnErr result (self.new ≡ self.old) }
    {
        let counter_ids = names.counters();
        let gauge_ids = names.gauges();
        let mut counts = Vec::with_capacity(alloc, counter_ids.len())?;
        let mut words = Vec::with_capacity(alloc, gauge_ids.len())?;
        read_into(counters, &mut self.counters, counter_ids, &mut counts);
        load_into(gauges, &mut self.gauges, gauge_ids, &mut words);
        Ok(ReadRecord {
            at: names.at(),
            counters: List::of(counts),
            gauges: List::of(words),
        })
    }
}
