//! What is said on `err`.
ghost use Rattle.std.specs.Prelude.{◌≡◌, ◌≤◌, ◌+◌, ◌^◌, ◌<◌, ◌++◌, IfOk, length, map, string_bytes, codes};
ghost use Rattle.std.specs.Fmt.{decimal};
ghost use Rattle.stats_commands.specs.Outcome.{IsSaid};
ghost use Rattle.stats_commands.specs.FaultLines.{fault_line, fault_lines};

use stat_defs::{FileEnd, NoMemory, WorkerEnd};
use stats_io::{Sink, push_all};
use std::alloc::Global;

/// What words that are no command are answered.
pub const USAGE: &[u8] =
    b"usage: envoy_stats run|replay [--symbols] [--format statsd|prom|admin] BOOT FILE.. | check BOOT | bins V.. | load [--run] W E\n";

/// What is said where memory was wanting.
pub const OUT_OF_MEMORY: &[u8] = b"out of memory\n";

/// What is said where a push on the output failed.
pub const WRITE_FAILED: &[u8] = b"write failed\n";

/// Says a text. A fault of the sink changes nothing else.
pub fn say<E: Sink>(err: &mut E, text: &[u8])
    ensures said { IsSaid (E.state err.old) (E.state err.new) text.now }
    ensures later { (E.state err.old).faults ≤ (E.state err.new).faults }
{
    let _ = push_all(err, text);
}

// A line on the file of that number.
fn file_line(alloc: Global, number: usize, told: &str) -> Result<String, NoMemory>
    ensures { IfOk result (λ text.
        string_bytes text ≡ codes "file " ++ (decimal number ++ (codes ": " ++ (told.now ++ codes "\n")))) }
{
    Ok(format!(in alloc; "file {number}: {told}\n")?)
}

// A line on a line of that file.
fn place_line(alloc: Global, number: usize, line: u64, told: &str) -> Result<String, NoMemory>
    ensures { IfOk result (λ text. string_bytes text ≡ codes "file " ++ (decimal number
        ++ (codes " line " ++ (decimal line ++ (codes ": " ++ (told.now ++ codes "\n")))))) }
{
    Ok(format!(in alloc; "file {number} line {line}: {told}\n")?)
}

// The line as text.
fn fault_line(alloc: Global, number: usize, end: FileEnd) -> Result<String, NoMemory>
    ensures { IfOk result (λ text. string_bytes text ≡ fault_line number end) }
{
    match end {
        FileEnd::Whole => Ok(String::new(alloc)),
        FileEnd::BadLine(n) => place_line(alloc, number, n, "no event"),
        FileEnd::LineTooLong(n) => place_line(alloc, number, n, "line too long"),
        FileEnd::TooBig => file_line(alloc, number, "too big"),
        FileEnd::TooMany => file_line(alloc, number, "too many events"),
        FileEnd::ReadFault => file_line(alloc, number, "read failed"),
        FileEnd::NotOpened => file_line(alloc, number, "not opened"),
    }
}

/// The lines on files that ended so, numbered from 1; none on a file that was read whole.
pub fn fault_lines(alloc: Global, ends: &[WorkerEnd]) -> Result<Vec<u8>, NoMemory>
    requires { length ends.now < 2 ^ 32 }
    ensures { IfOk result (λ text. text.items ≡ fault_lines 1 (map (λ end. end.end) ends.now)) }
{
    let mut text = Vec::new(alloc);
    let mut number = 1;
    for end in ends {
        let line = fault_line(alloc, number, end.end)?;
        text.extend_from_slice(line.as_bytes())?;
        number += 1;
    }
    Ok(text)
}
