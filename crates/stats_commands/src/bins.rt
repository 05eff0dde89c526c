//! `bins V..`.
ghost use Rattle.std.specs.Prelude.{◌≡◌, None, IfOk, string_bytes};
ghost use Rattle.stats_commands.specs.BinLines.{value_line, bin_line, bin_lines};
ghost use Rattle.stats_commands.specs.Outcome.{Prints};

use crate::outcome::{Outcome, give_up, print};
use loglinear_bins::bin_of;
use stat_defs::{Bin, NoMemory};
use stats_io::Sink;
use std::alloc::Global;

// The line on a value with its bin.
fn value_line(alloc: Global, value: u64, bin: Bin) -> Result<String, NoMemory>
    ensures { IfOk result (λ text. string_bytes text ≡ value_line value bin) }
{
    let Bin { val, exp } = bin;
    Ok(format!(in alloc; "{value} {val} {exp}\n")?)
}

fn bin_line(alloc: Global, value: u64) -> Result<String, NoMemory>
    ensures { IfOk result (λ text. string_bytes text ≡ bin_line value) }
{
    value_line(alloc, value, bin_of(value))
}

// A line for each value.
fn bin_lines(alloc: Global, values: &[u64]) -> Result<Vec<u8>, NoMemory>
    ensures { IfOk result (λ text. text.items ≡ bin_lines values.now) }
{
    let mut text = Vec::new(alloc);
    for value in values {
        let line = bin_line(alloc, *value)?;
        text.extend_from_slice(line.as_bytes())?;
    }
    Ok(text)
}

/// Writes the bins of values.
pub fn bins<O: Sink, E: Sink>(alloc: Global, values: &[u64], out: &mut O, err: &mut E) -> Outcome
    ensures report { result.report ≡ None }
    ensures boot_faults { result.boot_faults ≡ 0 }
    ensures printed { Prints O.state out.old out.new (E.state err.old) (E.state err.new)
        (bin_lines values.now) result.status }
{
    match bin_lines(alloc, values) {
        Ok(text) => Outcome {
            status: print(&text, out, err),
            report: None,
            boot_faults: 0,
        },
        Err(NoMemory) => give_up(err),
    }
}
