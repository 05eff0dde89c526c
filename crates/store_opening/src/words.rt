//! The words of a new store.
ghost use Rattle.std.specs.Prelude.{◌≤◌, IfOk};
ghost use Rattle.book_state.specs.declared.limits.TheConstants.{MAX_WORKERS};
ghost use Rattle.store_opening.specs.Made.{AreWords};

use book_state::MAX_METRICS;
use metric_words::{CounterBank, GaugeBank, GaugeSeats, WordSeats};
use stat_defs::NoMemory;
use std::alloc::Global;

/// Words for each metric of a book, as a counter and as a gauge, and the seats of all parties.
#[derive(Drop)]
pub(crate) struct Words {
    pub(crate) counters: CounterBank,
    pub(crate) counts: WordSeats,
    pub(crate) gauges: GaugeBank,
    pub(crate) levels: GaugeSeats,
}

// Words for so many workers.
pub(crate) fn make_words(alloc: Global, workers: u32) -> Result<Words, NoMemory>
    requires { (1 ≤ workers) × (workers ≤ MAX_WORKERS) }
    ensures { IfOk result (AreWords workers) }
{
    let size = MAX_METRICS as u32;
    let (counters, counts) = CounterBank::new(alloc, workers, size)?;
    let Ok((gauges, levels)) = GaugeBank::new(alloc, workers, size) else {
        drop(counters);
        drop(counts);
        return Err(NoMemory);
    };
    Ok(Words {
        counters,
        counts,
        gauges,
        levels,
    })
}
