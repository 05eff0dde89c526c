//! What a store's flushes show.
ghost use Rattle.std.specs.Prelude.{◌<◌, IfOk, IfErr, length};
ghost use Rattle.stat_defs.specs.Configs.{IsConfig};
ghost use Rattle.flush_view.specs.Showing.{IsShowable};
ghost use Rattle.flush_view.specs.Views.{IsView};
ghost use Rattle.tag_rules.specs.Unbuilt.{HasNoViews};

use flush_view::{flush_view, names_of_log};
use stat_defs::{Config, FlushView, Report};
use std::alloc::Global;
use tag_rules::{TagFault, rules_and_buckets};

/// What flush k of a report shows; flushes are numbered from 0.
pub fn shown_of(
    alloc: Global,
    config: &Config,
    report: &Report,
    k: usize,
) -> Result<FlushView, TagFault>
    requires config { IsConfig config.now }
    requires showable { IsShowable config.now report.now }
    requires within { k < length report.now.flushes }
    ensures shown { IfOk result (λ shown. IsView config.now report.now k shown) }
    ensures refused { IfErr result (λ fault. HasNoViews config.now fault) }
{
    let (rules, buckets) = rules_and_buckets(alloc, config)?;
    let names = names_of_log(alloc, config, rules, report)?;
    Ok(flush_view(alloc, config, names, &buckets, report, k)?)
}
