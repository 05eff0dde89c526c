//! The rows that are written, in the order in which they are written.
ghost use Rattle.std.specs.Prelude.{◌≡◌, ◌++◌, IfOk, OnOk, map};
ghost use Rattle.std.specs.Ordering.{nat_cmp};
ghost use Rattle.std.specs.Cmp.Lexicographic.{slice_cmp};
ghost use Rattle.prom_text.specs.Members.{CounterMember, GaugeMember, HistogramMember, members, tagged_of, kind_of};
ghost use Rattle.prom_text.specs.Members.{member_name, is_before, in_order, same_group as the_same_group};
ghost use Rattle.prom_text.specs.Rows.{member_of};
ghost use Rattle.stat_defs.specs.Keys.{same_kind, same_text};

use crate::labels::compare_printed;
use stat_defs::{CounterRow, FlushView, GaugeRow, HistRow, Tagged};
use std::alloc::{AllocError, Global};
use std::cmp::Ordering;

/// A row of a view that is written.
#[derive(Clone, Copy)]
pub(crate) enum Row<'a> {
    Counter(&'a CounterRow),
    Gauge(&'a GaugeRow),
    Histogram(&'a HistRow),
}

impl<'a> Row<'a> {
    pub(crate) fn tagged(&self) -> &'a Tagged
        ensures { result.now ≡ tagged_of (member_of self.now) }
    {
        match self {
            Row::Counter(row) => &row.tagged,
            Row::Gauge(row) => &row.tagged,
            Row::Histogram(row) => &row.tagged,
        }
    }
}

/// How two rows compare by their names, as they are printed.
fn compare_names(a: &Row<'_>, b: &Row<'_>) -> Ordering
    ensures { result ≡ slice_cmp nat_cmp (member_name (member_of a.now)) (member_name (member_of b.now)) }
{
    compare_printed(a.tagged().extracted.bytes(), b.tagged().extracted.bytes())
}

fn is_same_kind(a: &Row<'_>, b: &Row<'_>) -> bool
    ensures { result ≡ same_kind (kind_of (member_of a.now)) (kind_of (member_of b.now)) }
{
    match a {
        Row::Counter(_) => matches!(b, Row::Counter(_)),
        Row::Gauge(_) => matches!(b, Row::Gauge(_)),
        Row::Histogram(_) => matches!(b, Row::Histogram(_)),
    }
}

fn is_same_name(a: &Row<'_>, b: &Row<'_>) -> bool
    ensures { result ≡ same_text (member_name (member_of a.now)) (member_name (member_of b.now)) }
{
    compare_names(a, b).is_eq()
}

/// Whether two rows are of one printed name and kind.
pub(crate) fn is_same_group(a: &Row<'_>, b: &Row<'_>) -> bool
    ensures { result ≡ the_same_group (member_of a.now) (member_of b.now) }
{
    is_same_kind(a, b) && is_same_name(a, b)
}

fn add_counters<'a>(rows: &mut Vec<Row<'a>>, counters: &'a [CounterRow]) -> Result<(), AllocError>
    ensures { OnOk result (map member_of rows.new.items
        ≡ map member_of rows.old.items ++ map CounterMember counters.now) }
{
    for row in counters {
        rows.push(Row::Counter(row))?;
    }
    Ok(())
}

fn add_gauges<'a>(rows: &mut Vec<Row<'a>>, gauges: &'a [GaugeRow]) -> Result<(), AllocError>
    ensures { OnOk result (map member_of rows.new.items
        ≡ map member_of rows.old.items ++ map GaugeMember gauges.now) }
{
    for row in gauges {
        rows.push(Row::Gauge(row))?;
    }
    Ok(())
}

fn add_histograms<'a>(rows: &mut Vec<Row<'a>>, histograms: &'a [HistRow]) -> Result<(), AllocError>
    ensures { OnOk result (map member_of rows.new.items
        ≡ map member_of rows.old.items ++ map HistogramMember histograms.now) }
{
    for row in histograms {
        rows.push(Row::Histogram(row))?;
    }
    Ok(())
}

fn rows_of(alloc: Global, view: &FlushView) -> Result<Vec<Row<'_>>, AllocError>
    ensures { IfOk result (λ rows. map member_of rows.items ≡ members view.now) }
{
    let mut rows = Vec::new(alloc);
    add_counters(&mut rows, view.counters.items())?;
    add_gauges(&mut rows, view.gauges.items())?;
    add_histograms(&mut rows, view.histograms.items())?;
    Ok(rows)
}

fn sort_by_name(rows: &mut Vec<Row<'_>>) -> Result<(), AllocError>
    ensures { OnOk result (map member_of rows.new.items ≡ in_order is_before (map member_of rows.old.items)) }
{
    rows.sort_by(|a, b| compare_names(a, b))?;
    Ok(())
}

/// The rows of a view in the order in which they are written.
pub(crate) fn rows_in_order(alloc: Global, view: &FlushView) -> Result<Vec<Row<'_>>, AllocError>
    ensures { IfOk result (λ rows. map member_of rows.items ≡ in_order is_before (members view.now)) }
{
    let mut rows = rows_of(alloc, view)?;
    sort_by_name(&mut rows)?;
    Ok(rows)
}
