//! The rows of a view.
ghost use Rattle.std.specs.Prelude.{◌≡◌, ◌&&◌, IfOk, IsUtf8, All, map};
ghost use Rattle.stat_defs.specs.declared.ids.Kind.TheVariants as kind;
ghost use Rattle.stat_defs.specs.Keys.{same_kind};
ghost use Rattle.tag_rules.specs.Bounds.{bounds_for};
ghost use Rattle.flush_view.specs.Before.{is_left};
ghost use Rattle.flush_view.specs.Rows.{picked, shows_counter, shows_histogram, counter_at, gauge_at, histogram_at};
ghost use Rattle.flush_view.specs.Rows.{text_at};

use crate::before::{is_left, text_left};
use crate::copies::copy_of_tagged;
use crate::naming::{NumberedMetric, is_of_kind};
use crate::sums::{has_bins_at, pairs_at, sum_at};
use loglinear_bins::Bins;
use stat_defs::{Bound, CounterRow, GaugeRow, HistRow, Kind, List, NoMemory, TextRow, Txt};
use std::alloc::Global;
use tag_rules::Buckets;

fn shows_counter(before: &[Option<Txt>], units: &[u64], numbered: &NumberedMetric) -> bool
    ensures { result ≡ (same_kind numbered.now.1.kind kind.Counter
        && shows_counter before.now units.now numbered.now.0) }
{
    if !is_of_kind(&numbered.1, Kind::Counter) {
        return false;
    }
    if is_left(before, numbered.0) {
        return true;
    }
    sum_at(units, numbered.0) > 0
}

fn counter_row(
    alloc: Global,
    units: &[u64],
    totals: &[u64],
    numbered: &NumberedMetric,
) -> Result<CounterRow, NoMemory>
    ensures { IfOk result (λ row. row ≡ counter_at units.now totals.now numbered.now) }
{
    Ok(CounterRow {
        name: numbered.1.name.clone()?,
        tagged: copy_of_tagged(&numbered.1.tagged)?,
        delta: sum_at(units, numbered.0),
        total: sum_at(totals, numbered.0),
    })
}

/// The rows of the counters.
pub(crate) fn counter_rows(
    alloc: Global,
    before: &[Option<Txt>],
    units: &[u64],
    totals: &[u64],
    metrics: &[NumberedMetric],
) -> Result<List<CounterRow>, NoMemory>
    ensures { IfOk result (λ rows. rows ≡ map (counter_at units.now totals.now)
        (picked kind.Counter (shows_counter before.now units.now) metrics.now)) }
{
    let mut rows = Vec::new(alloc);
    for numbered in metrics {
        if shows_counter(before, units, numbered) {
            rows.push(counter_row(alloc, units, totals, numbered)?)?;
        }
    }
    Ok(List::of(rows))
}

fn shows_left(before: &[Option<Txt>], shown: Kind, numbered: &NumberedMetric) -> bool
    ensures { result ≡ (same_kind numbered.now.1.kind shown && is_left before.now numbered.now.0) }
{
    if !is_of_kind(&numbered.1, shown) {
        return false;
    }
    is_left(before, numbered.0)
}

fn gauge_row(alloc: Global, words: &[u64], numbered: &NumberedMetric) -> Result<GaugeRow, NoMemory>
    ensures { IfOk result (λ row. row ≡ gauge_at words.now numbered.now) }
{
    Ok(GaugeRow {
        name: numbered.1.name.clone()?,
        tagged: copy_of_tagged(&numbered.1.tagged)?,
        value: sum_at(words, numbered.0).cast_signed(),
    })
}

/// The rows of the gauges.
pub(crate) fn gauge_rows(
    alloc: Global,
    before: &[Option<Txt>],
    words: &[u64],
    metrics: &[NumberedMetric],
) -> Result<List<GaugeRow>, NoMemory>
    ensures { IfOk result (λ rows. rows ≡ map (gauge_at words.now)
        (picked kind.Gauge (is_left before.now) metrics.now)) }
{
    let mut rows = Vec::new(alloc);
    for numbered in metrics {
        if shows_left(before, Kind::Gauge, numbered) {
            rows.push(gauge_row(alloc, words, numbered)?)?;
        }
    }
    Ok(List::of(rows))
}

fn row_of_text(
    alloc: Global,
    before: &[Option<Txt>],
    numbered: &NumberedMetric,
) -> Result<TextRow, NoMemory>
    ensures { IfOk result (λ row. row ≡ text_at before.now numbered.now) }
{
    Ok(TextRow {
        name: numbered.1.name.clone()?,
        text: text_left(alloc, before, numbered.0)?,
    })
}

/// The rows of the text readouts.
pub(crate) fn text_rows(
    alloc: Global,
    before: &[Option<Txt>],
    metrics: &[NumberedMetric],
) -> Result<List<TextRow>, NoMemory>
    ensures { IfOk result (λ rows. rows ≡ map (text_at before.now)
        (picked kind.Text (is_left before.now) metrics.now)) }
{
    let mut rows = Vec::new(alloc);
    for numbered in metrics {
        if shows_left(before, Kind::Text, numbered) {
            rows.push(row_of_text(alloc, before, numbered)?)?;
        }
    }
    Ok(List::of(rows))
}

fn shows_histogram(
    before: &[Option<Txt>],
    intervals: &[Option<Bins>],
    numbered: &NumberedMetric,
) -> bool
    ensures { result ≡ (same_kind numbered.now.1.kind kind.Histogram
        && shows_histogram before.now intervals.now numbered.now.0) }
{
    if !is_of_kind(&numbered.1, Kind::Histogram) {
        return false;
    }
    if is_left(before, numbered.0) {
        return true;
    }
    has_bins_at(intervals, numbered.0)
}

fn bounds_of(alloc: Global, buckets: &Buckets, name: &Txt) -> Result<List<Bound>, NoMemory>
    requires { IsUtf8 name.now }
    ensures { IfOk result (λ bounds. bounds ≡ bounds_for buckets.now name.now) }
{
    let bounds = buckets.bounds_for(alloc, name.bytes())?;
    Ok(List::of(bounds.to_vec(alloc)?))
}

fn histogram_row(
    alloc: Global,
    buckets: &Buckets,
    intervals: &[Option<Bins>],
    cumulative: &[Option<Bins>],
    numbered: &NumberedMetric,
) -> Result<HistRow, NoMemory>
    requires { IsUtf8 numbered.now.1.name }
    ensures { IfOk result (λ row. row
        ≡ histogram_at (bounds_for buckets.now) intervals.now cumulative.now numbered.now) }
{
    Ok(HistRow {
        name: numbered.1.name.clone()?,
        tagged: copy_of_tagged(&numbered.1.tagged)?,
        interval: pairs_at(alloc, intervals, numbered.0)?,
        cumulative: pairs_at(alloc, cumulative, numbered.0)?,
        bounds: bounds_of(alloc, buckets, &numbered.1.name)?,
    })
}

/// The rows of the histograms.
pub(crate) fn histogram_rows(
    alloc: Global,
    before: &[Option<Txt>],
    buckets: &Buckets,
    intervals: &[Option<Bins>],
    cumulative: &[Option<Bins>],
    metrics: &[NumberedMetric],
) -> Result<List<HistRow>, NoMemory>
    requires { All (λ numbered. IsUtf8 numbered.1.name) metrics.now }
    ensures { IfOk result (λ rows. rows ≡ map (histogram_at (bounds_for buckets.now) intervals.now cumulative.now)
        (picked kind.Histogram (shows_histogram before.now intervals.now) metrics.now)) }
{
    let mut rows = Vec::new(alloc);
    for numbered in metrics {
        if shows_histogram(before, intervals, numbered) {
            rows.push(histogram_row(alloc, buckets, intervals, cumulative, numbered)?)?;
        }
    }
    Ok(List::of(rows))
}
