//! The tables of parents.
ghost use Rattle.std.specs.Prelude.{◌≡◌, ℕ, ◌+◌, ◌^◌, ◌<◌, ◌≤◌, [], OnOk, vec_len};
ghost use Rattle.loglinear_bins.specs.declared.place.TheConstants.{MAX_COUNT};
ghost use Rattle.merge_round.specs.Halves.{HasAtMost, no_bins};
ghost use Rattle.merge_round.specs.Slots.{bins_at, is_warm_at};
ghost use Rattle.merge_round.specs.Kept.{parts_in, IsReady, HasSameBins, HasFew, IsMerged};

use crate::tables::Tables;
use crate::workers::{append_worker, clear_workers, warm_worker};
use stat_defs::NoMemory;
use std::alloc::Global;

/// The tables of a round by worker, those of all workers together, and those of all rounds.
#[derive(Drop)]
pub(crate) struct Merged {
    pub(crate) workers: Vec<Tables>,
    pub(crate) interval: Tables,
    pub(crate) cumulative: Tables,
}

impl Merged {
    /// Tables for each histogram of which the others hold a value.
    pub(crate) fn make_room(
        &mut self,
        alloc: Global,
        worker: usize,
        others: &Tables,
    ) -> Result<(), NoMemory>
        requires { worker < 2 ^ 32 }
        ensures same { HasSameBins self.old self.new }
        ensures ready { OnOk result (IsReady self.new worker others.now) }
    {
        warm_worker(alloc, &mut self.workers, worker, others)?;
        self.interval.warm_for(alloc, others)?;
        self.cumulative.warm_for(alloc, others)
    }

    /// Moves all values of the others to the worker's part, and adds them to the interval and to the cumulative bins.
    /// The others keep their tables.
    pub(crate) fn take(&mut self, worker: usize, others: &mut Tables)
        requires ready { IsReady self.old worker others.old }
        requires room { (n m : ℕ) × HasFew self.old n × HasAtMost m (bins_at others.old) × (n + m ≤ MAX_COUNT) }
        ensures merged { IsMerged worker (bins_at others.old) self.old self.new }
        ensures none { bins_at others.new ≡ no_bins }
        ensures warm { is_warm_at others.new ≡ is_warm_at others.old }
    {
        self.interval.merge(others);
        self.cumulative.merge(others);
        append_worker(&mut self.workers, worker, others);
    }

    /// Forgets the values of the round. The tables stay.
    pub(crate) fn clear_round(&mut self)
        ensures parts { (worker : ℕ) → parts_in self.new worker ≡ no_bins }
        ensures interval { bins_at self.new.interval ≡ no_bins }
        ensures cumulative { self.new.cumulative ≡ self.old.cumulative }
        ensures workers { vec_len self.new.workers ≡ vec_len self.old.workers }
    {
        clear_workers(&mut self.workers);
        self.interval.clear();
    }
}
