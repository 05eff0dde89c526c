//! Metrics in the order of their full names.
ghost use Rattle.std.specs.Prelude.{◌≡◌, ◌++◌, ◌&&◌, IfOk, OnOk, map, filter};
ghost use Rattle.std.specs.Cmp.Lexicographic.{slice_cmp};
ghost use Rattle.std.specs.List.{enumerate_from, flat_map};
ghost use Rattle.std.specs.Ordering.{nat_cmp};
ghost use Rattle.stat_defs.specs.Keys.{same_kind};
ghost use Rattle.flush_view.specs.ByName.{by_name};
ghost use Rattle.flush_view.specs.Views.{row_name};
ghost use Rattle.flush_view.specs.Symbols.{is_live_life, kinds};
ghost use Rattle.flush_view.specs.Named.{live_in};

use stat_defs::{Kind, Life, Metric, NoMemory};
use std::alloc::{AllocError, Global};
use std::cmp::Ordering;

/// A metric with its number.
pub type NumberedMetric = (usize, Metric);

fn compare_names(one: &NumberedMetric, other: &NumberedMetric) -> Ordering
    ensures { result ≡ slice_cmp nat_cmp (row_name one.now) (row_name other.now) }
{
    one.1.name.cmp(&other.1.name)
}

fn sort_by_name(metrics: &mut Vec<NumberedMetric>) -> Result<(), AllocError>
    ensures { OnOk result (metrics.new.items ≡ by_name row_name metrics.old.items) }
{
    metrics.sort_by(|one, other| compare_names(one, other))?;
    Ok(())
}

fn numbered(alloc: Global, metrics: Vec<Metric>) -> Result<Vec<NumberedMetric>, NoMemory>
    ensures { IfOk result (λ numbered. numbered.items ≡ enumerate_from 0 metrics.items) }
{
    let mut numbered = Vec::with_capacity(alloc, metrics.len())?;
    for metric in metrics {
        let id = numbered.len();
        numbered.push((id, metric))?;
    }
    Ok(numbered)
}

/// Metrics with their numbers, by full name, and those of one name by number.
pub fn in_order(alloc: Global, metrics: Vec<Metric>) -> Result<Vec<NumberedMetric>, NoMemory>
    ensures { IfOk result (λ named. named.items ≡ by_name row_name (enumerate_from 0 metrics.items)) }
{
    let mut numbered = numbered(alloc, metrics)?;
    sort_by_name(&mut numbered)?;
    Ok(numbered)
}

/// Whether a metric is of this kind.
pub(crate) fn is_of_kind(metric: &Metric, kind: Kind) -> bool
    ensures { result ≡ same_kind metric.now.kind kind }
{
    match kind {
        Kind::Counter => matches!(metric.kind, Kind::Counter),
        Kind::Gauge => matches!(metric.kind, Kind::Gauge),
        Kind::Histogram => matches!(metric.kind, Kind::Histogram),
        Kind::Text => matches!(metric.kind, Kind::Text),
    }
}

fn is_live(metric: &Metric, kind: Kind) -> bool
    ensures { result ≡ (is_live_life metric.now.life && same_kind metric.now.kind kind) }
{
    match metric.life {
        Life::Live => is_of_kind(metric, kind),
        _ => false,
    }
}

fn add_live<'a>(
    rows: &mut Vec<&'a Metric>,
    metrics: &'a [NumberedMetric],
    kind: Kind,
) -> Result<(), AllocError>
    ensures { OnOk result (map (λ metric. metric.now) rows.new.items
        ≡ map (λ metric. metric.now) rows.old.items ++ live_in metrics.now kind) }
{
    for numbered in metrics {
        if is_live(&numbered.1, kind) {
            rows.push(&numbered.1)?;
        }
    }
    Ok(())
}

fn live_by_kind(alloc: Global, metrics: &[NumberedMetric]) -> Result<Vec<&Metric>, AllocError>
    ensures { IfOk result (λ rows. map (λ metric. metric.now) rows.items ≡ flat_map (live_in metrics.now) kinds) }
{
    let mut rows = Vec::new(alloc);
    add_live(&mut rows, metrics, Kind::Counter)?;
    add_live(&mut rows, metrics, Kind::Gauge)?;
    add_live(&mut rows, metrics, Kind::Histogram)?;
    add_live(&mut rows, metrics, Kind::Text)?;
    Ok(rows)
}

fn compare_metrics(one: &&Metric, other: &&Metric) -> Ordering
    ensures { result ≡ slice_cmp nat_cmp one.now.now.name other.now.now.name }
{
    one.name.cmp(&other.name)
}

fn sort_metrics(metrics: &mut Vec<&Metric>) -> Result<(), AllocError>
    ensures { OnOk result (map (λ metric. metric.now) metrics.new.items
        ≡ by_name (λ metric. metric.name) (map (λ metric. metric.now) metrics.old.items)) }
{
    metrics.sort_by(|one, other| compare_metrics(one, other))?;
    Ok(())
}

/// Of metrics those that are live, by full name, and those of one name by kind.
pub(crate) fn live_in_order(
    alloc: Global,
    metrics: &[NumberedMetric],
) -> Result<Vec<&Metric>, NoMemory>
    ensures { IfOk result (λ rows. map (λ metric. metric.now) rows.items
        ≡ by_name (λ metric. metric.name) (flat_map (live_in metrics.now) kinds)) }
{
    let mut rows = live_by_kind(alloc, metrics)?;
    sort_metrics(&mut rows)?;
    Ok(rows)
}
