//! Views whose rows are written as one text.
ghost use Rattle.std.specs.Prelude.{IfOk, All, OnOk};
ghost use Rattle.text_parts.specs.Histograms.{AreHistograms, HasHistograms};

use loglinear_bins::{Bins, MAX_COUNT};
use stat_defs::{
    Bound, CounterRow, FlushView, GaugeRow, HistRow, List, SharedList, Tag, Tagged, TextRow, Txt,
};
use std::alloc::Global;
use std::test::Fail;

// What stands before the first such character, and behind it.
fn cut(text: &str, at: char) -> (&str, &str) {
    text.split_once(at).unwrap_or((text, ""))
}

// The tags of `NAME=VALUE,NAME=VALUE`.
fn tags_of(alloc: Global, text: &str) -> Result<SharedList<Tag>, Fail> {
    let mut tags = Vec::new(alloc);
    for tag in text.split(',') {
        let (name, value) = cut(tag, '=');
        if !name.is_empty() {
            let name = Txt::of(alloc, name.as_bytes())?;
            let value = Txt::of(alloc, value.as_bytes())?;
            tags.push(Tag { name, value })?;
        }
    }
    Ok(SharedList::of(tags)?)
}

// What is left of a name and its tags, which are written behind it; all of the name where nothing is.
fn tagged_of(alloc: Global, name: &str, behind: &str) -> Result<Tagged, Fail> {
    let (extracted, tags) = cut(behind, ' ');
    let left = if extracted.is_empty() {
        name
    } else {
        extracted
    };
    Ok(Tagged {
        extracted: Txt::of(alloc, left.as_bytes())?,
        tags: tags_of(alloc, tags)?,
    })
}

// `NAME TOTAL`, or `NAME TOTAL+DELTA`, and what the name's tags are.
fn counter_of(alloc: Global, row: &str) -> Result<CounterRow, Fail> {
    let (name, rest) = cut(row, ' ');
    let (number, behind) = cut(rest, ' ');
    let (total, delta) = cut(number, '+');
    Ok(CounterRow {
        name: Txt::of(alloc, name.as_bytes())?,
        tagged: tagged_of(alloc, name, behind)?,
        delta: delta.parse::<u64>().unwrap_or(0),
        total: total.parse::<u64>().unwrap_or(0),
    })
}

// `NAME VALUE`, and what the name's tags are.
fn gauge_of(alloc: Global, row: &str) -> Result<GaugeRow, Fail> {
    let (name, rest) = cut(row, ' ');
    let (number, behind) = cut(rest, ' ');
    Ok(GaugeRow {
        name: Txt::of(alloc, name.as_bytes())?,
        tagged: tagged_of(alloc, name, behind)?,
        value: number.parse::<i64>().unwrap_or(0),
    })
}

// `NAME TEXT`.
fn text_of(alloc: Global, row: &str) -> Result<TextRow, Fail> {
    let (name, text) = cut(row, ' ');
    Ok(TextRow {
        name: Txt::of(alloc, name.as_bytes())?,
        text: Txt::of(alloc, text.as_bytes())?,
    })
}

fn counters_in(alloc: Global, rows: &str) -> Result<List<CounterRow>, Fail> {
    let mut counters = Vec::new(alloc);
    for row in rows.split(';') {
        if let Some(row) = row.strip_prefix("c ") {
            counters.push(counter_of(alloc, row)?)?;
        }
    }
    Ok(List::of(counters))
}

fn gauges_in(alloc: Global, rows: &str) -> Result<List<GaugeRow>, Fail> {
    let mut gauges = Vec::new(alloc);
    for row in rows.split(';') {
        if let Some(row) = row.strip_prefix("g ") {
            gauges.push(gauge_of(alloc, row)?)?;
        }
    }
    Ok(List::of(gauges))
}

fn texts_in(alloc: Global, rows: &str) -> Result<List<TextRow>, Fail> {
    let mut texts = Vec::new(alloc);
    for row in rows.split(';') {
        if let Some(row) = row.strip_prefix("t ") {
            texts.push(text_of(alloc, row)?)?;
        }
    }
    Ok(List::of(texts))
}

/// The view of these rows, parted by `;`, as `c a 1`, `g b -2` and `t c text`, and of these histograms.
pub fn view_of(alloc: Global, rows: &str, histograms: Vec<HistRow>) -> Result<FlushView, Fail>
    requires { All AreHistograms histograms.items }
    ensures { IfOk result (λ view. HasHistograms view) }
{
    Ok(FlushView {
        counters: counters_in(alloc, rows)?,
        gauges: gauges_in(alloc, rows)?,
        texts: texts_in(alloc, rows)?,
        histograms: List::of(histograms),
    })
}

/// The values from 1 to 100.
pub fn values_to_100(alloc: Global) -> Result<Bins, Fail> {
    let mut bins = Bins::new(alloc)?;
    for v in 1..101 {
        if bins.count() < MAX_COUNT {
            bins.record(v);
        }
    }
    Ok(bins)
}

/// No histograms.
pub fn none(alloc: Global) -> Vec<HistRow>
    ensures { All AreHistograms result.items }
{
    Vec::new(alloc)
}

/// A histogram of these bins, since the flush before and in all, with these bounds, given as twice the bound.
pub fn row_of(
    alloc: Global,
    name: &str,
    interval: &Bins,
    cumulative: &Bins,
    bounds: List<Bound>,
) -> Result<HistRow, Fail>
    ensures { IfOk result (λ row. AreHistograms row) }
{
    Ok(HistRow {
        name: Txt::of(alloc, name.as_bytes())?,
        tagged: tagged_of(alloc, name, "")?,
        interval: interval.pairs(alloc)?,
        cumulative: cumulative.pairs(alloc)?,
        bounds,
    })
}

/// Adds a histogram.
pub fn add_row(rows: &mut Vec<HistRow>, row: HistRow) -> Result<(), Fail>
    requires all { All AreHistograms rows.old.items }
    requires row { AreHistograms row }
    ensures { OnOk result (All AreHistograms rows.new.items) }
{
    rows.push(row)?;
    Ok(())
}
