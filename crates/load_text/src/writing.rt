//! The text of a load.
ghost use Rattle.std.specs.Prelude.{◌≡◌, ◌≤◌, ◌++◌, All, IfOk, OnOk, string_bytes};
ghost use Rattle.text_parts.specs.Histograms.{AreHistograms, HasHistograms};
ghost use Rattle.loglinear_bins.specs.declared.place.TheConstants.{MAX_COUNT};
ghost use Rattle.load_text.specs.Summary.{head_line, events_line, pair_line, view_lines, values_of, summary};
ghost use Rattle.load_text.specs.Summary.{histogram_lines};

use crate::bins::{add_bins, all_bins};
use crate::counts::{accepted, dropped, events_told, units_of, words_of};
use stat_defs::{FlushView, HistRow, List, NoMemory, Verdict};
use std::alloc::Global;

fn head_line(alloc: Global, scripts: u32, events: u32) -> Result<String, NoMemory>
    ensures { IfOk result (λ text. string_bytes text ≡ head_line scripts events) }
{
    Ok(format!(in alloc; "# load {scripts} {events}\n")?)
}

fn events_line(alloc: Global, verdicts: &[List<Verdict>]) -> Result<String, NoMemory>
    ensures { IfOk result (λ text. string_bytes text ≡ events_line verdicts.now) }
{
    let events = events_told(verdicts);
    let accepted = accepted(verdicts);
    let dropped = dropped(verdicts);
    Ok(format!(in alloc; "events {events} accepted {accepted} dropped {dropped}\n")?)
}

fn pair_line(alloc: Global, word: &str, n: usize, other: &str, m: u128) -> Result<String, NoMemory>
    ensures { IfOk result (λ text. string_bytes text ≡ pair_line word.now n other.now m) }
{
    Ok(format!(in alloc; "{word} {n} {other} {m}\n")?)
}

fn add_line(text: &mut Vec<u8>, line: &String) -> Result<(), NoMemory>
    ensures { OnOk result (text.new.items ≡ text.old.items ++ string_bytes line.now) }
{
    text.extend_from_slice(line.as_bytes())?;
    Ok(())
}

// Adds the lines on the histograms.
fn add_histograms(alloc: Global, rows: &[HistRow], text: &mut Vec<u8>) -> Result<(), NoMemory>
    requires histograms { All AreHistograms rows.now }
    requires room { values_of rows.now ≤ MAX_COUNT }
    ensures { OnOk result (text.new.items ≡ text.old.items ++ histogram_lines rows.now) }
{
    let bins = all_bins(alloc, rows)?;
    let values = u128::from(bins.count());
    add_line(
        text,
        &pair_line(alloc, "histograms", rows.len(), "values", values)?,
    )?;
    let pairs = bins.pairs(alloc)?;
    add_bins(alloc, pairs.items(), text)?;
    Ok(())
}

// Adds what a view holds.
fn add_view(alloc: Global, view: &FlushView, text: &mut Vec<u8>) -> Result<(), NoMemory>
    requires histograms { HasHistograms view.now }
    requires room { values_of view.now.histograms ≤ MAX_COUNT }
    ensures { OnOk result (text.new.items ≡ text.old.items ++ view_lines view.now) }
{
    let counters = view.counters.items();
    let gauges = view.gauges.items();
    add_line(
        text,
        &pair_line(
            alloc,
            "counters",
            counters.len(),
            "units",
            units_of(counters),
        )?,
    )?;
    add_line(
        text,
        &pair_line(alloc, "gauges", gauges.len(), "sum", words_of(gauges))?,
    )?;
    add_histograms(alloc, view.histograms.items(), text)?;
    Ok(())
}

/// What is written of so many scripts of so many events, of which each event has a verdict, and of which this is what the
/// last flush shows.
pub fn summary(
    alloc: Global,
    scripts: u32,
    events: u32,
    verdicts: &[List<Verdict>],
    view: &FlushView,
) -> Result<Vec<u8>, NoMemory>
    requires histograms { HasHistograms view.now }
    requires room { values_of view.now.histograms ≤ MAX_COUNT }
    ensures { IfOk result (λ text. text.items ≡ summary scripts events verdicts.now view.now) }
{
    let mut text = Vec::new(alloc);
    add_line(&mut text, &head_line(alloc, scripts, events)?)?;
    add_line(&mut text, &events_line(alloc, verdicts)?)?;
    add_view(alloc, view, &mut text)?;
    Ok(text)
}
