//! The text of a flush in the StatsD line format.
#![tactic(auto)]

ghost use Rattle.std.specs.Prelude.{◌≤◌};
ghost use Rattle.std.specs.List.{flat_map};
ghost use Rattle.text_parts.specs.Answer.{IsTextAnswer};
ghost use Rattle.statsd_text.specs.Statsd.{gauge_lines, statsd_text};
ghost use Rattle.statsd_text.specs.Parts.{shown_counter};

mod lines;

use lines::{put_counter, put_gauge};
use stat_defs::{CounterRow, FlushView, GaugeRow, Txt};
use stats_io::{Sink, push_all};
use std::alloc::Global;
use text_parts::{TextFault, push_full};

fn write_counters<O: Sink>(
    alloc: Global,
    rows: &[CounterRow],
    prefix: &[u8],
    out: &mut O,
) -> Result<(), TextFault>
    ensures answer { IsTextAnswer (O.state out.old) (O.state out.new)
        (flat_map (shown_counter prefix.now) rows.now) result }
    ensures later { (O.state out.old).faults ≤ (O.state out.new).faults }
{
    let mut text = Vec::new(alloc);
    for row in rows {
        put_counter(&mut text, prefix, row)?;
        push_full(&mut text, out)?;
    }
    push_all(out, &text)?;
    Ok(())
}

fn write_gauges<O: Sink>(
    alloc: Global,
    rows: &[GaugeRow],
    prefix: &[u8],
    out: &mut O,
) -> Result<(), TextFault>
    ensures answer { IsTextAnswer (O.state out.old) (O.state out.new) (gauge_lines prefix.now rows.now) result }
    ensures later { (O.state out.old).faults ≤ (O.state out.new).faults }
{
    let mut text = Vec::new(alloc);
    for row in rows {
        put_gauge(&mut text, prefix, row)?;
        push_full(&mut text, out)?;
    }
    push_all(out, &text)?;
    Ok(())
}

/// Appends the StatsD lines of the counters and gauges that a flush shows, with this prefix before their names. A
/// gauge's value is its reading and no change, also where it is negative. The text is pushed in pieces of `PUSH_BYTES`
/// and more.
pub fn write_statsd<O: Sink>(
    alloc: Global,
    view: &FlushView,
    prefix: &Txt,
    out: &mut O,
) -> Result<(), TextFault>
    ensures answer { IsTextAnswer (O.state out.old) (O.state out.new) (statsd_text prefix.now view.now) result }
    ensures later { (O.state out.old).faults ≤ (O.state out.new).faults }
{
    write_counters(alloc, view.counters.items(), prefix.bytes(), out)?;
    write_gauges(alloc, view.gauges.items(), prefix.bytes(), out)
}
