//! The views of a report, one after another.
ghost use Rattle.std.specs.Prelude.{◌≡◌, ◌<◌, true, false, length, map, IfOk, OnOk, OnErr};
ghost use Rattle.flush_view.specs.Views.{IsView, view_rules, last_state, names_shown};
ghost use Rattle.flush_view.specs.Symbols.{live_metrics};
ghost use Rattle.flush_view.specs.Showing.{IsShowable, first_views, view_in_turn, after_view};

use crate::before::Before;
use crate::naming::{NumberedMetric, in_order, live_in_order};
use crate::progress::Progress;
use crate::walk::befores_in;
use stat_defs::{Config, FlushView, LogNames, Metric, NoMemory, Report};
use std::alloc::Global;
use std::marker::Model;
use tag_rules::Buckets;

/// The views of a report. Contracts see them as the configuration and the report, and as the number of views that
/// were given.
#[derive(Drop)]
pub struct ReportViews<'a> {
    config: &'a Config,
    buckets: &'a Buckets,
    report: &'a Report,
    given: usize,
    whole: bool,
    // Every metric of the whole log, by full name.
    metrics: Vec<NumberedMetric>,
    // What is known before the sweep of each flush.
    befores: Vec<Before>,
    progress: Progress,
}

impl<'a> Model for ReportViews<'a> {
    ghost use Rattle.flush_view.specs.Showing.{ViewHistory};

    ghost Value = { ViewHistory };

    ghost use Rattle.flush_view.specs.ViewsKept.{shown, Kept};

    ghost view = { shown };

    ghost invariant = { Kept };
}

impl<'a> ReportViews<'a> {
    /// The views of this report, which came with these names. Buckets are those that were built from the configuration.
    pub fn new(
        alloc: Global,
        config: &'a Config,
        names: LogNames,
        buckets: &'a Buckets,
        report: &'a Report,
    ) -> Result<ReportViews<'a>, NoMemory>
        requires names { names ≡ names_shown (view_rules config.now).names report.now.log }
        requires buckets { buckets.now ≡ config.now.buckets }
        requires showable { IsShowable config.now report.now }
        ensures { IfOk result (λ views. views ≡ first_views config.now report.now) }
    {
        let LogNames { metrics, changes } = names;
        let befores = befores_in(alloc, config, changes.items(), report)?;
        let metrics = in_order(alloc, metrics.into_items())?;
        let progress = Progress::new(alloc, metrics.len())?;
        Ok(ReportViews {
            config,
            buckets,
            report,
            given: 0,
            whole: true,
            metrics,
            befores,
            progress,
        })
    }

    /// The view of the flush whose turn it is, or none behind the last. After want of memory no more views are given.
    pub fn next(&mut self, alloc: Global) -> Result<Option<FlushView>, NoMemory>
        requires whole { self.old.whole ≡ true }
        ensures shown { IfOk result (λ shown. shown ≡ view_in_turn self.old) }
        ensures ok { OnOk result (self.new ≡ after_view self.old) }
        ensures err { OnErr result (self.new ≡ record self.old { whole = false }) }
    {
        let report = self.report;
        let Some(flush) = report.flushes.items().get(self.given) else {
            return Ok(None);
        };
        self.whole = false;
        self.progress.follow(alloc, flush)?;
        let before = self.befores[self.given].items();
        let view = self
            .progress
            .view(alloc, self.buckets, before, &self.metrics, flush)?;
        self.given += 1;
        self.whole = true;
        Ok(Some(view))
    }

    /// The metrics that are live after the whole log, by full name, and those of one name by kind.
    pub fn live_metrics(&self, alloc: Global) -> Result<Vec<&Metric>, NoMemory>
        ensures { IfOk result (λ metrics. map (λ metric. metric.now) metrics.items
            ≡ live_metrics (last_state (view_rules self.now.config).names self.now.report.log)) }
    {
        live_in_order(alloc, &self.metrics)
    }
}

/// What flush k of a report shows, which came with these names; flushes are numbered from 0.
pub fn flush_view(
    alloc: Global,
    config: &Config,
    names: LogNames,
    buckets: &Buckets,
    report: &Report,
    k: usize,
) -> Result<FlushView, NoMemory>
    requires names { names ≡ names_shown (view_rules config.now).names report.now.log }
    requires buckets { buckets.now ≡ config.now.buckets }
    requires showable { IsShowable config.now report.now }
    requires within { k < length report.now.flushes }
    ensures { IfOk result (λ shown. IsView config.now report.now k shown) }
{
    let mut views = ReportViews::new(alloc, config, names, buckets, report)?;
    for _i in 0..k {
        let _earlier = views.next(alloc)?;
    }
    match views.next(alloc)? {
        Some(view) => Ok(view),
        None => unreachable!(),
    }
}
