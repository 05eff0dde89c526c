//! Halves, which workers fill.
ghost use Rattle.std.specs.Prelude.{◌≡◌, ◌<◌, IsErr, IsOk, IsTrue, OnErr, OnOk, length};
ghost use Rattle.merge_round.specs.Halves.{is_warm_in, new_half, recorded};

use crate::tables::Tables;
use ghost_list::GhostList;
use stat_defs::{MetricId, NoMemory, Weighed};
use std::alloc::Global;
use std::marker::Model;

/// The maximum number of values of a half.
pub const MAX_HALF_COUNT: u64 = 1 << 23;

/// The values that a worker recorded since its half was empty, as the bins of each histogram. A histogram is warm where
/// the half has a table for it, which stays. Contracts see the values themselves, in order.
#[derive(Drop)]
pub struct Half {
    pub(crate) tables: Tables,
    pub(crate) count: u64,
    pub(crate) values: GhostList<(u32, u64)>,
    touched: GhostList<u32>,
}

impl Model for Half {
    ghost use Rattle.merge_round.specs.Halves.{HalfState};
    ghost use Rattle.merge_round.specs.Kept.{IsHalf};

    ghost Value = { HalfState };

    ghost view = { λ h. record { values = h.values.items; touched = h.touched.items } };

    ghost invariant = { λ h. IsHalf h.tables h.count (record { values = h.values.items; touched = h.touched.items }) };
}

impl Half {
    /// No values, and no warm histogram. This takes no memory.
    pub fn new(alloc: Global) -> Half
        ensures { result ≡ new_half }
    {
        Half {
            tables: Tables::new(alloc),
            count: 0,
            values: GhostList::new(),
            touched: GhostList::new(),
        }
    }

    /// Whether the half has a table for the histogram.
    pub fn is_warm(&self, id: MetricId) -> bool
        ensures { result ≡ is_warm_in self.now id.0 }
    {
        self.tables.is_warm(id)
    }

    /// Counts one value of the histogram, which is warm then. Where it was, this takes no memory.
    #[inline(always)]
    pub fn record(&mut self, alloc: Global, id: MetricId, v: u64) -> Result<(), NoMemory>
        requires { length self.old.values < MAX_HALF_COUNT }
        ensures ok { OnOk result (self.new ≡ recorded id.0 v self.old) }
        ensures sure { IsTrue (is_warm_in self.old id.0) → IsOk result }
        ensures err { OnErr result (self.new ≡ self.old) }
    {
        self.tables.warm(alloc, id)?;
        self.tables.record(id, v);
        self.count += 1;
        self.values = self.values.and(&(id.0, v));
        self.touched = self.touched.and(&id.0);
        Ok(())
    }
}

impl Weighed for Half {
    ghost use Rattle.std.specs.Prelude.{◌≡◌, length};

    // The number of values.
    ghost weighs = { λ half. length half.values };

    fn weight(&self) -> u64 {
        self.count
    }
}
