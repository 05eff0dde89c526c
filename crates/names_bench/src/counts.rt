//! A small book with changes: a count of them, of which each was made by an entry of its own, and a list of what its calls
//! made, which costs what a log costs.
ghost use Rattle.std.specs.Prelude.{◌≡◌, ◌+◌, ◌≤◌, ◌⊎◌};
ghost use Rattle.book_lock.specs.declared.limits.TheConstants.{MAX_CHANGES};

use book_lock::MAX_CHANGES;
use stat_defs::{Booked, Kind, MetricId, NameOp};
use std::alloc::Global;

#[derive(Drop)]
pub struct Counts {
    pub made: u32,
    calls: Vec<u32>,
}

impl Booked for Counts {
    ghost use Rattle.names_bench.specs.Filled.{history_of, changes_of};

    ghost history = { λ b. history_of b.made };

    ghost changed = { λ b. changes_of b.made };

    fn releases(&self) -> u64 {
        0
    }

    fn changes(&self) -> u32 {
        self.made
    }

    fn change(&self, k: u32) -> NameOp {
        NameOp::Made {
            at: k as u64 + 1,
            id: MetricId(k / 2),
            kind: Kind::Counter,
        }
    }
}

impl Counts {
    /// No change was made.
    pub fn new(alloc: Global) -> Counts
        ensures { result.made ≡ 0 }
    {
        Counts {
            made: 0,
            calls: Vec::new(alloc),
        }
    }

    /// Makes this number of changes more, where a lock has room for all and there is memory.
    pub fn make(&mut self, count: u32)
        ensures { ((self.new.made ≡ self.old.made + count) × (self.new.made ≤ MAX_CHANGES))
            ⊎ (self.new.made ≡ self.old.made) }
    {
        if self.calls.push(count).is_err() || count > MAX_CHANGES {
            return;
        }
        if self.made <= MAX_CHANGES - count {
            self.made += count;
        }
    }
}
