//! The views of flushes, one after another, while their store goes on.
ghost use Rattle.std.specs.Prelude.{◌≡◌, ◌++◌, [], ◌∷◌, true, false, All, IfOk, OnOk, OnErr};
ghost use Rattle.flush_view.specs.Showing.{HasBinsShown};
ghost use Rattle.flush_view.specs.Views.{view_rules};
ghost use Rattle.live_view.specs.Live.{CanBeShown, GoesOn, no_views, view_so_far};

use crate::copies::copy_of_metrics;
use crate::following::carry_on;
use book_state::{BookState, MAX_METRICS};
use flush_view::naming::in_order;
use flush_view::progress::Progress;
use ghost_list::GhostList;
use stat_defs::{Config, Entry, FlushRecord, FlushView, List, NoMemory};
use std::alloc::Global;
use std::marker::Model;
use tag_rules::{Buckets, TagRules};

/// The views of a store that goes on, with so many workers. Contracts see them as the configuration, the number of
/// workers, the log up to the flush that was shown last, and the flushes that were shown.
#[derive(Drop)]
pub struct LiveViews<'a> {
    config: &'a Config,
    buckets: &'a Buckets,
    workers: u32,
    // The book after the entries that were followed.
    book: BookState,
    followed: usize,
    progress: Progress,
    log: GhostList<List<Entry>>,
    flushes: GhostList<FlushRecord>,
    whole: bool,
}

impl<'a> Model for LiveViews<'a> {
    ghost use Rattle.live_view.specs.Live.{LiveHistory};

    ghost Value = { LiveHistory };

    ghost use Rattle.live_view.specs.LiveKept.{shown, Kept};

    ghost view = { shown };

    ghost invariant = { Kept };
}

// This log alone.
fn only(log: &[Entry]) -> GhostList<List<Entry>>
    ensures { result.items ≡ log.now ∷ [] }
{
    GhostList::new().and_for(&log)
}

impl<'a> LiveViews<'a> {
    /// No flush is shown yet. Rules and buckets are those that were built from the configuration: they serve all views.
    pub fn new(
        alloc: Global,
        config: &'a Config,
        rules: TagRules,
        buckets: &'a Buckets,
        workers: u32,
    ) -> Result<LiveViews<'a>, NoMemory>
        requires rules { rules ≡ config.now.tags }
        requires buckets { buckets.now ≡ config.now.buckets }
        ensures { IfOk result (λ views. views ≡ no_views config.now workers) }
    {
        Ok(LiveViews {
            config,
            buckets,
            workers,
            book: BookState::new(alloc, rules, workers)?,
            followed: 0,
            progress: Progress::new(alloc, MAX_METRICS)?,
            log: GhostList::new(),
            flushes: GhostList::new(),
            whole: true,
        })
    }

    /// What the store's next flush shows, where this is its log so far. It takes time in the entries that are new, and
    /// in the metrics. After want of memory no more views are given.
    pub fn show(
        &mut self,
        alloc: Global,
        log: &[Entry],
        flush: &FlushRecord,
    ) -> Result<FlushView, NoMemory>
        requires whole { self.old.whole ≡ true }
        requires follows { GoesOn self.old.log log.now flush.now }
        requires showable { CanBeShown self.old.config self.old.workers log.now (self.old.flushes ++ flush.now ∷ []) }
        ensures shown { IfOk result (λ shown. shown ≡ view_so_far (view_rules self.old.config) self.old.workers
            log.now flush.now (self.old.flushes ++ flush.now ∷ [])) }
        ensures bins { IfOk result (λ shown. All HasBinsShown shown.histograms) }
        ensures ok { OnOk result (self.new
            ≡ record self.old { log = log.now; flushes = self.old.flushes ++ flush.now ∷ [] }) }
        ensures err { OnErr result (self.new ≡ record self.old { whole = false }) }
    {
        self.whole = false;
        let new = &log[self.followed..];
        let place = flush.at as usize - self.followed;
        let before = carry_on(alloc, &mut self.book, new, place)?;
        self.followed = log.len();
        self.progress.follow(alloc, flush)?;
        let metrics = in_order(alloc, copy_of_metrics(alloc, &self.book)?)?;
        let before = before.items();
        let view = self
            .progress
            .view(alloc, self.buckets, before, &metrics, flush)?;
        self.log = only(log);
        self.flushes = self.flushes.and(flush);
        self.whole = true;
        Ok(view)
    }
}
