//! The text of a flush in the Prometheus exposition format.
#![tactic(auto)]

ghost use Rattle.std.specs.Prelude.{◌≡◌, ◌≤◌, ◌++◌, OnOk, option_map, map, None};
ghost use Rattle.std.specs.List.{All};
ghost use Rattle.text_parts.specs.Answer.{IsTextAnswer};
ghost use Rattle.text_parts.specs.Histograms.{HasHistograms};
ghost use Rattle.prom_text.specs.Prometheus.{prom_text, HasHistogram};
ghost use Rattle.prom_text.specs.Rows.{member_of, begins_group as the_begin, member_text, text_from};

mod labels;
mod laws;
mod lines;
mod rows;

pub use laws::{groups_law, text_law};
use lines::{put_row, put_type};
use rows::{Row, is_same_group, rows_in_order};
use stat_defs::FlushView;
use stats_io::{Sink, push_all};
use std::alloc::{AllocError, Global};
use text_parts::{TextFault, push_full};

fn begins_group(before: &Option<Row<'_>>, row: &Row<'_>) -> bool
    ensures { result ≡ the_begin (option_map member_of before.now) (member_of row.now) }
{
    match before {
        None => true,
        Some(before) => !is_same_group(before, row),
    }
}

fn put_member(
    alloc: Global,
    text: &mut Vec<u8>,
    before: &Option<Row<'_>>,
    row: &Row<'_>,
) -> Result<(), AllocError>
    requires { HasHistogram (member_of row.now) }
    ensures { OnOk result (text.new.items
        ≡ text.old.items ++ member_text (option_map member_of before.now) (member_of row.now)) }
{
    if begins_group(before, row) {
        put_type(text, row)?;
    }
    put_row(alloc, text, row)
}

fn write_rows<O: Sink>(alloc: Global, rows: &[Row<'_>], out: &mut O) -> Result<(), TextFault>
    requires { All (λ row. HasHistogram (member_of row)) rows.now }
    ensures answer { IsTextAnswer (O.state out.old) (O.state out.new)
        (text_from None (map member_of rows.now)) result }
    ensures later { (O.state out.old).faults ≤ (O.state out.new).faults }
{
    let mut text = Vec::new(alloc);
    let mut before = None;
    for row in rows {
        put_member(alloc, &mut text, &before, row)?;
        push_full(&mut text, out)?;
        before = Some(*row);
    }
    push_all(out, &text)?;
    Ok(())
}

/// Appends the Prometheus text of what a flush shows. The text is pushed in pieces of `PUSH_BYTES` and more.
pub fn write_prom<O: Sink>(alloc: Global, view: &FlushView, out: &mut O) -> Result<(), TextFault>
    requires { HasHistograms view.now }
    ensures answer { IsTextAnswer (O.state out.old) (O.state out.new) (prom_text view.now) result }
    ensures later { (O.state out.old).faults ≤ (O.state out.new).faults }
{
    let rows = rows_in_order(alloc, view)?;
    write_rows(alloc, &rows, out)
}
