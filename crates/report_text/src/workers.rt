//! The line of each file.
ghost use Rattle.std.specs.Prelude.{◌≡◌, ◌≤◌, ◌++◌, IfOk, OnOk, not, count_by, string_bytes};
ghost use Rattle.text_parts.specs.Answer.{IsTextAnswer};
ghost use Rattle.flush_view.specs.Output.{took_effect, worker_line};
ghost use Rattle.report_text.specs.Parts.{workers_text};

use stat_defs::{List, NoMemory, Verdict};
use stats_io::{Sink, push_all};
use std::alloc::Global;
use text_parts::{TextFault, push_full};

fn took_effect(verdict: &Verdict) -> bool
    ensures { result ≡ took_effect verdict.now }
{
    matches!(
        verdict,
        Verdict::Accepted(_) | Verdict::Opened(_) | Verdict::Released(_)
    )
}

fn accepted(verdicts: &[Verdict]) -> usize
    ensures { result ≡ count_by took_effect verdicts.now }
{
    let mut count = 0;
    for verdict in verdicts {
        if took_effect(verdict) {
            count += 1;
        }
    }
    count
}

// All but those that were accepted.
fn dropped(verdicts: &[Verdict], accepted: usize) -> usize
    requires { accepted ≡ count_by took_effect verdicts.now }
    ensures { result ≡ count_by (λ v. not (took_effect v)) verdicts.now }
{
    verdicts.len() - accepted
}

/// The line of the file of that number.
fn line_of(alloc: Global, number: usize, verdicts: &[Verdict]) -> Result<String, NoMemory>
    ensures { IfOk result (λ text. string_bytes text ≡ worker_line (number, verdicts.now)) }
{
    let accepted = accepted(verdicts);
    let dropped = dropped(verdicts, accepted);
    Ok(format!(in alloc; "# worker {number}: {accepted} accepted, {dropped} dropped\n")?)
}

fn put_worker(
    alloc: Global,
    text: &mut Vec<u8>,
    number: usize,
    verdicts: &[Verdict],
) -> Result<(), NoMemory>
    ensures { OnOk result (text.new.items ≡ text.old.items ++ worker_line (number, verdicts.now)) }
{
    let line = line_of(alloc, number, verdicts)?;
    text.extend_from_slice(line.as_bytes())?;
    Ok(())
}

/// Writes a line for each file, numbered from 1, of which these are the verdicts.
pub(crate) fn write_workers<O: Sink>(
    alloc: Global,
    lists: &[List<Verdict>],
    out: &mut O,
) -> Result<(), TextFault>
    ensures answer { IsTextAnswer (O.state out.old) (O.state out.new) (workers_text lists.now) result }
    ensures later { (O.state out.old).faults ≤ (O.state out.new).faults }
{
    let mut text = Vec::new(alloc);
    for (at, verdicts) in lists.iter().enumerate() {
        put_worker(alloc, &mut text, at + 1, verdicts.items())?;
        push_full(&mut text, out)?;
    }
    push_all(out, &text)?;
    Ok(())
}
