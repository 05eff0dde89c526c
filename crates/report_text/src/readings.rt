//! The line of each reading.
ghost use Rattle.std.specs.Prelude.{◌≡◌, ◌≤◌, ◌++◌, IfOk, OnOk, sum_by, string_bytes};
ghost use Rattle.text_parts.specs.Answer.{IsTextAnswer};
ghost use Rattle.flush_view.specs.Output.{read_line};
ghost use Rattle.report_text.specs.Parts.{reads_text};

use stat_defs::{NoMemory, ReadRecord, Reading};
use stats_io::{Sink, push_all};
use std::alloc::Global;
use text_parts::{TextFault, push_full};

/// The sum of the values.
fn units_of(readings: &[Reading]) -> u128
    ensures { result ≡ sum_by (λ reading. reading.word) readings.now }
{
    let mut units = 0;
    for reading in readings {
        units += u128::from(reading.word);
    }
    units
}

/// The line of the reading of that number.
fn line_of(alloc: Global, number: usize, read: &ReadRecord) -> Result<String, NoMemory>
    ensures { IfOk result (λ text. string_bytes text ≡ read_line (number, read.now)) }
{
    let counters = read.counters.items().len();
    let units = units_of(read.counters.items());
    Ok(format!(in alloc; "# read {number}: {counters} counters, {units} units\n")?)
}

fn put_read(
    alloc: Global,
    text: &mut Vec<u8>,
    number: usize,
    read: &ReadRecord,
) -> Result<(), NoMemory>
    ensures { OnOk result (text.new.items ≡ text.old.items ++ read_line (number, read.now)) }
{
    let line = line_of(alloc, number, read)?;
    text.extend_from_slice(line.as_bytes())?;
    Ok(())
}

/// Writes a line for each reading, numbered from 1.
pub(crate) fn write_reads<O: Sink>(
    alloc: Global,
    reads: &[ReadRecord],
    out: &mut O,
) -> Result<(), TextFault>
    ensures answer { IsTextAnswer (O.state out.old) (O.state out.new) (reads_text reads.now) result }
    ensures later { (O.state out.old).faults ≤ (O.state out.new).faults }
{
    let mut text = Vec::new(alloc);
    for (at, read) in reads.iter().enumerate() {
        put_read(alloc, &mut text, at + 1, read)?;
        push_full(&mut text, out)?;
    }
    push_all(out, &text)?;
    Ok(())
}
