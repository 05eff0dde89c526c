//! The report of files.
ghost use Rattle.std.specs.Prelude.{◌≡◌, ◌≤◌, length, map, string_bytes, IfOk};
ghost use Rattle.stat_defs.specs.Configs.{IsConfig};
ghost use Rattle.ledger.specs.Ledger.{HasNames, plan_of};
ghost use Rattle.file_reading.specs.declared.limits.TheConstants as limits;
ghost use Rattle.run_report.specs.RunReport.{IsRunOf};

use crate::ends::with_ends;
use crate::openings::{Openings, open_files};
use run_files::{Setup, run_files};
use run_gates::PaceGate;
use stat_defs::{NoMemory, Reported};
use stats_io::Shelf;
use std::alloc::Global;
use std::sync::Wait;
use std::thread::Threads;

/// Opens the files of a shelf in order, and reads them side by side, each by a worker of its own that applies its
/// events to one store, beside a flusher and a reader that are paced by events. The report has all flushes, the last one
/// behind the workers' ends, and all readings, and it comes with the names in its log. A file that cannot be opened has
/// no events. Rules and matcher are those that were built from the configuration. Tables are hashed under the key, which
/// only speed depends on. May wait.
pub fn run_names<R: Threads + Wait + Sync, F: Shelf>(
    rt: &R,
    alloc: Global,
    setup: Setup<'_>,
    names: &[String],
    shelf: &mut F,
) -> Result<Reported, NoMemory>
    requires config { IsConfig setup.config.now }
    requires built { (setup.rules ≡ setup.config.now.tags) × (setup.matcher ≡ setup.config.now.matcher) }
    requires some { 1 ≤ length names.now }
    requires few { length names.now ≤ limits.MAX_FILES }
    ensures report { IfOk result (λ made. IsRunOf F.state F.S.state (F.holds shelf.old) setup.entry.config.now
        (map string_bytes names.now) shelf.old shelf.new made.report) }
    ensures names { IfOk result (HasNames (plan_of setup.entry.config.now).rules (length names.now)) }
{
    let gate = PaceGate::new(alloc, names.len() as u32, setup.config.flush_every)?;
    let Openings { files, ends } = open_files(alloc, shelf, names)?;
    let made = run_files(rt, alloc, &gate, setup, files)?;
    let Reported {
        report,
        names: given,
    } = made;
    Ok(Reported {
        report: with_ends(report, &ends),
        names: given,
    })
}
