//! What the flushes of a report took so far, and the view of the last of them.
ghost use Rattle.std.specs.Prelude.{◌≡◌, None, IfOk, OnOk, IsUtf8, All, length, replicate};
ghost use Rattle.tag_rules.specs.Bounds.{bounds_for};

use crate::naming::NumberedMetric;
use crate::rows::{counter_rows, gauge_rows, histogram_rows, text_rows};
use crate::sums::{add_deltas, add_parts, no_bins, no_sums};
use crate::taken::taken_by;
use loglinear_bins::Bins;
use stat_defs::{FlushRecord, FlushView, NoMemory, Txt};
use std::alloc::Global;
use tag_rules::Buckets;

/// What flushes took so far, by the numbers of metrics.
#[derive(Drop)]
pub struct Progress {
    pub totals: Vec<u64>,
    pub cumulative: Vec<Option<Bins>>,
}

impl Progress {
    ghost use Rattle.flush_view.specs.Kept.{kept_of, IsAtStart, Follows};
    ghost use Rattle.flush_view.specs.Sums.{HasRoomForAll};
    ghost use Rattle.flush_view.specs.Rows.{view_kept};

    /// No flush is followed yet, of so many metrics.
    pub fn new(alloc: Global, count: usize) -> Result<Progress, NoMemory>
        ensures { IfOk result (IsAtStart count) }
    {
        Ok(Progress {
            totals: no_sums(alloc, count)?,
            cumulative: no_bins(alloc, count)?,
        })
    }

    /// Adds what a flush took.
    pub fn follow(&mut self, alloc: Global, flush: &FlushRecord) -> Result<(), NoMemory>
        requires { HasRoomForAll self.old.cumulative.items flush.now.parts }
        ensures { OnOk result (Follows flush.now self.old self.new) }
    {
        add_deltas(&mut self.totals, flush.deltas.items());
        add_parts(alloc, &mut self.cumulative, flush.parts.items())
    }

    /// The view of the flush that was followed last, where this is known before its sweep.
    pub fn view(
        &self,
        alloc: Global,
        buckets: &Buckets,
        before: &[Option<Txt>],
        metrics: &[NumberedMetric],
        flush: &FlushRecord,
    ) -> Result<FlushView, NoMemory>
        requires texts { All (λ numbered. IsUtf8 numbered.1.name) metrics.now }
        requires room { HasRoomForAll (replicate (length metrics.now) None) flush.now.parts }
        ensures { IfOk result (λ shown. shown ≡ view_kept (bounds_for buckets.now) before.now
            (kept_of (length metrics.now) flush.now self.now.totals.items self.now.cumulative.items) metrics.now) }
    {
        let taken = taken_by(alloc, metrics.len(), flush)?;
        Ok(FlushView {
            counters: counter_rows(alloc, before, &taken.units, &self.totals, metrics)?,
            gauges: gauge_rows(alloc, before, &taken.words, metrics)?,
            texts: text_rows(alloc, before, metrics)?,
            histograms: histogram_rows(
                alloc,
                before,
                buckets,
                &taken.intervals,
                &self.cumulative,
                metrics,
            )?,
        })
    }
}
