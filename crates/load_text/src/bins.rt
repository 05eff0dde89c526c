//! The bins of all histograms together.
ghost use Rattle.std.specs.Prelude.{◌≡◌, ◌≤◌, ◌++◌, IfOk, All, OnOk, string_bytes};
ghost use Rattle.std.specs.List.{flat_map};
ghost use Rattle.text_parts.specs.Histograms.{AreHistograms};
ghost use Rattle.loglinear_bins.specs.declared.place.TheConstants.{MAX_COUNT};
ghost use Rattle.load_text.specs.Summary.{all_bins, bin_line, values_of};

use loglinear_bins::Bins;
use stat_defs::{BinCount, HistRow, NoMemory};
use std::alloc::Global;

/// The bins of all rows.
pub(crate) fn all_bins(alloc: Global, rows: &[HistRow]) -> Result<Bins, NoMemory>
    requires histograms { All AreHistograms rows.now }
    requires room { values_of rows.now ≤ MAX_COUNT }
    ensures { IfOk result (λ bins. bins ≡ all_bins rows.now) }
{
    let mut all = Bins::new(alloc)?;
    for row in rows {
        let bins = Bins::of_pairs(alloc, row.cumulative.items())?;
        all.merge(&bins);
    }
    Ok(all)
}

fn bin_line(alloc: Global, counted: BinCount) -> Result<String, NoMemory>
    ensures { IfOk result (λ text. string_bytes text ≡ bin_line counted) }
{
    let BinCount { bin, count } = counted;
    let val = bin.val;
    let exp = bin.exp;
    Ok(format!(in alloc; "bin {val} {exp} {count}\n")?)
}

/// Adds a line for each bin.
pub(crate) fn add_bins(alloc: Global, bins: &[BinCount], text: &mut Vec<u8>) -> Result<(), NoMemory>
    ensures { OnOk result (text.new.items ≡ text.old.items ++ flat_map bin_line bins.now) }
{
    for counted in bins {
        let line = bin_line(alloc, *counted)?;
        text.extend_from_slice(line.as_bytes())?;
    }
    Ok(())
}
