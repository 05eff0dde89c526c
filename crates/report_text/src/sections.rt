//! The texts of the flushes.
ghost use Rattle.std.specs.Prelude.{◌≡◌, ◌≤◌, ◌++◌, true, IfOk, OnOk, length};
ghost use Rattle.text_parts.specs.Answer.{IsTextAnswer};
ghost use Rattle.text_parts.specs.Histograms.{HasHistograms};
ghost use Rattle.flush_view.specs.Showing.{IsShowable, first_views, view_in_turn, after_view};
ghost use Rattle.flush_view.specs.Views.{view_rules};
ghost use Rattle.report_text.specs.ReportText.{view_text};
ghost use Rattle.report_text.specs.Parts.{flush_head, flush_text, flushes_text};

use admin_read::write_admin;
use flush_view::ReportViews;
use output_options::Format;
use prom_text::write_prom;
use stat_defs::{FlushView, NoMemory, Txt};
use stats_io::{Sink, push_all};
use statsd_text::write_statsd;
use std::alloc::Global;
use text_parts::{TextFault, put_number};

/// The line above the text of a view.
fn head_of(alloc: Global, number: usize, is_last: bool) -> Result<Vec<u8>, NoMemory>
    ensures { IfOk result (λ head. head.items ≡ flush_head number is_last) }
{
    let mut head = Vec::new(alloc);
    if is_last {
        head.extend_from_slice(b"# last\n")?;
        return Ok(head);
    }
    head.extend_from_slice(b"# flush ")?;
    put_number(&mut head, number as u64)?;
    head.push(b'\n')?;
    Ok(head)
}

fn write_head<O: Sink>(
    alloc: Global,
    number: usize,
    is_last: bool,
    out: &mut O,
) -> Result<(), TextFault>
    ensures answer { IsTextAnswer (O.state out.old) (O.state out.new) (flush_head number is_last) result }
    ensures later { (O.state out.old).faults ≤ (O.state out.new).faults }
{
    let head = head_of(alloc, number, is_last)?;
    push_all(out, &head)?;
    Ok(())
}

/// Writes a view in this format.
fn write_view<O: Sink>(
    alloc: Global,
    format: Format,
    prefix: &Txt,
    view: &FlushView,
    out: &mut O,
) -> Result<(), TextFault>
    requires { HasHistograms view.now }
    ensures answer { IsTextAnswer (O.state out.old) (O.state out.new) (view_text prefix.now format view.now) result }
    ensures later { (O.state out.old).faults ≤ (O.state out.new).faults }
{
    match format {
        Format::Statsd => write_statsd(alloc, view, prefix, out),
        Format::Prom => write_prom(alloc, view, out),
        Format::Admin => write_admin(alloc, view, out),
    }
}

/// Writes a view under its line.
fn write_section<O: Sink>(
    alloc: Global,
    format: Format,
    prefix: &Txt,
    number: usize,
    is_last: bool,
    view: &FlushView,
    out: &mut O,
) -> Result<(), TextFault>
    requires { HasHistograms view.now }
    ensures answer { IsTextAnswer (O.state out.old) (O.state out.new)
        (flush_head number is_last ++ view_text prefix.now format view.now) result }
    ensures later { (O.state out.old).faults ≤ (O.state out.new).faults }
{
    write_head(alloc, number, is_last, out)?;
    write_view(alloc, format, prefix, view, out)
}

/// Makes and writes the view whose turn it is.
fn write_flush<O: Sink>(
    alloc: Global,
    format: Format,
    prefix: &Txt,
    number: usize,
    is_last: bool,
    views: &mut ReportViews<'_>,
    out: &mut O,
) -> Result<(), TextFault>
    requires whole { views.old.whole ≡ true }
    requires showable { IsShowable views.old.config views.old.report }
    ensures answer { IsTextAnswer (O.state out.old) (O.state out.new)
        (flush_text (view_text prefix.now format) number is_last (view_in_turn views.old)) result }
    ensures views { OnOk result (views.new ≡ after_view views.old) }
    ensures later { (O.state out.old).faults ≤ (O.state out.new).faults }
{
    let Some(view) = views.next(alloc)? else {
        return Ok(());
    };
    write_section(alloc, format, prefix, number, is_last, &view, out)
}

/// Writes the texts of all flushes, one after another. `count` is their number.
pub(crate) fn write_flushes<O: Sink>(
    alloc: Global,
    format: Format,
    prefix: &Txt,
    count: usize,
    views: &mut ReportViews<'_>,
    out: &mut O,
) -> Result<(), TextFault>
    requires first { views.old ≡ first_views views.old.config views.old.report }
    requires showable { IsShowable views.old.config views.old.report }
    requires count { count ≡ length views.old.report.flushes }
    ensures answer { IsTextAnswer (O.state out.old) (O.state out.new)
        (flushes_text (view_text prefix.now format) (view_rules views.old.config) views.old.report) result }
    ensures config { OnOk result (views.new.config ≡ views.old.config) }
    ensures report { OnOk result (views.new.report ≡ views.old.report) }
    ensures later { (O.state out.old).faults ≤ (O.state out.new).faults }
{
    for at in 0..count {
        write_flush(alloc, format, prefix, at + 1, at + 1 == count, views, out)?;
    }
    Ok(())
}
