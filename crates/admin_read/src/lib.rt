//! The text of a flush as Envoy's admin interface shows statistics.
#![tactic(auto)]

ghost use Rattle.std.specs.Prelude.{◌≡◌, ◌≤◌, map};
ghost use Rattle.std.specs.List.{All, flat_map};
ghost use Rattle.text_parts.specs.Answer.{IsTextAnswer};
ghost use Rattle.text_parts.specs.Histograms.{HasHistograms};
ghost use Rattle.admin_read.specs.Admin.{stat_line, admin_text};
ghost use Rattle.admin_read.specs.Rows.{stat_of, CanBeRead};

mod laws;
mod lines;
mod rows;

pub use laws::order_law;
use lines::put_row;
use rows::{StatRow, rows_of};
use stat_defs::FlushView;
use stats_io::{Sink, push_all};
use std::alloc::Global;
use text_parts::{TextFault, push_full};

fn write_rows<O: Sink>(alloc: Global, rows: &[StatRow<'_>], out: &mut O) -> Result<(), TextFault>
    requires { All (λ row. CanBeRead (stat_of row)) rows.now }
    ensures answer { IsTextAnswer (O.state out.old) (O.state out.new)
        (flat_map stat_line (map stat_of rows.now)) result }
    ensures later { (O.state out.old).faults ≤ (O.state out.new).faults }
{
    let mut text = Vec::new(alloc);
    for row in rows {
        put_row(&mut text, row)?;
        push_full(&mut text, out)?;
    }
    push_all(out, &text)?;
    Ok(())
}

/// Appends the admin text of what a flush shows. Rows keep the order of the view, which is by name, and `order_law`
/// says how counters and gauges join. Names and texts are written as they are. The text is pushed in pieces of
/// `PUSH_BYTES` and more.
pub fn write_admin<O: Sink>(alloc: Global, view: &FlushView, out: &mut O) -> Result<(), TextFault>
    requires { HasHistograms view.now }
    ensures answer { IsTextAnswer (O.state out.old) (O.state out.new) (admin_text view.now) result }
    ensures later { (O.state out.old).faults ≤ (O.state out.new).faults }
{
    let rows = rows_of(alloc, view)?;
    write_rows(alloc, &rows, out)
}
