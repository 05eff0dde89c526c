//! The rows of a view in the order in which they are written.
ghost use Rattle.std.specs.Prelude.{◌≡◌, ◌≤◌, ◌++◌, ◌∷◌, [], IfOk, OnOk, map, length};
ghost use Rattle.std.specs.List.{prefix_len};
ghost use Rattle.admin_read.specs.Admin.{TextStat, CounterStat, GaugeStat, HistogramStat, stands_before as is_first};
ghost use Rattle.admin_read.specs.Admin.{counters_up_to, counters_beyond, together, stats};
ghost use Rattle.admin_read.specs.Rows.{stat_of};

use stat_defs::{CounterRow, FlushView, GaugeRow, HistRow, TextRow};
use std::alloc::{AllocError, Global};

/// A row of a view.
#[derive(Clone, Copy)]
pub(crate) enum StatRow<'a> {
    Text(&'a TextRow),
    Counter(&'a CounterRow),
    Gauge(&'a GaugeRow),
    Histogram(&'a HistRow),
}

fn add_texts<'a>(rows: &mut Vec<StatRow<'a>>, texts: &'a [TextRow]) -> Result<(), AllocError>
    ensures { OnOk result (map stat_of rows.new.items
        ≡ map stat_of rows.old.items ++ map TextStat texts.now) }
{
    for row in texts {
        rows.push(StatRow::Text(row))?;
    }
    Ok(())
}

fn add_counters<'a>(
    rows: &mut Vec<StatRow<'a>>,
    counters: &'a [CounterRow],
) -> Result<(), AllocError>
    ensures { OnOk result (map stat_of rows.new.items
        ≡ map stat_of rows.old.items ++ map CounterStat counters.now) }
{
    for row in counters {
        rows.push(StatRow::Counter(row))?;
    }
    Ok(())
}

fn add_histograms<'a>(
    rows: &mut Vec<StatRow<'a>>,
    histograms: &'a [HistRow],
) -> Result<(), AllocError>
    ensures { OnOk result (map stat_of rows.new.items
        ≡ map stat_of rows.old.items ++ map HistogramStat histograms.now) }
{
    for row in histograms {
        rows.push(StatRow::Histogram(row))?;
    }
    Ok(())
}

fn stands_before(gauge: &GaugeRow, counter: &CounterRow) -> bool
    ensures { result ≡ is_first gauge.now counter.now }
{
    counter.name.cmp(&gauge.name).is_le()
}

/// How many counters stand before a gauge, from the first on.
fn count_before(gauge: &GaugeRow, counters: &[CounterRow]) -> usize
    ensures count { result ≡ prefix_len (is_first gauge.now) counters.now }
    ensures within { result ≤ length counters.now }
{
    for (i, counter) in counters.iter().enumerate() {
        if !stands_before(gauge, counter) {
            return i;
        }
    }
    counters.len()
}

/// Adds the counters that stand before a gauge, and the gauge, and gives the other counters.
fn add_gauge<'a>(
    rows: &mut Vec<StatRow<'a>>,
    counters: &'a [CounterRow],
    gauge: &'a GaugeRow,
) -> Result<&'a [CounterRow], AllocError>
    ensures added { OnOk result (map stat_of rows.new.items
        ≡ map stat_of rows.old.items
        ++ (map CounterStat (counters_up_to gauge.now counters.now) ++ GaugeStat gauge.now ∷ [])) }
    ensures others { IfOk result (λ others. others.now ≡ counters_beyond gauge.now counters.now) }
{
    let (before, others) = counters.split_at(count_before(gauge, counters));
    add_counters(rows, before)?;
    rows.push(StatRow::Gauge(gauge))?;
    Ok(others)
}

fn add_together<'a>(
    rows: &mut Vec<StatRow<'a>>,
    counters: &'a [CounterRow],
    gauges: &'a [GaugeRow],
) -> Result<(), AllocError>
    ensures { OnOk result (map stat_of rows.new.items
        ≡ map stat_of rows.old.items ++ together counters.now gauges.now) }
{
    let mut others = counters;
    for gauge in gauges {
        others = add_gauge(rows, others, gauge)?;
    }
    add_counters(rows, others)
}

/// The rows of a view in the order in which they are written.
pub(crate) fn rows_of(alloc: Global, view: &FlushView) -> Result<Vec<StatRow<'_>>, AllocError>
    ensures { IfOk result (λ rows. map stat_of rows.items ≡ stats view.now) }
{
    let mut rows = Vec::new(alloc);
    add_texts(&mut rows, view.texts.items())?;
    add_together(&mut rows, view.counters.items(), view.gauges.items())?;
    add_histograms(&mut rows, view.histograms.items())?;
    Ok(rows)
}
