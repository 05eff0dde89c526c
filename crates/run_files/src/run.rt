//! A run of files.
ghost use Rattle.std.specs.Prelude.{◌≡◌, ◌≤◌, IfOk, length};
ghost use Rattle.stat_defs.specs.Configs.{IsConfig};
ghost use Rattle.book_state.specs.declared.limits.TheConstants.{MAX_WORKERS};
ghost use Rattle.ledger.specs.Ledger.{HasNames, plan_of};
ghost use Rattle.run_files.specs.Run.{IsRunOfGiven};

use crate::reporting::report_of;
use crate::returning::{Parties, run_parties};
use crate::starting::{Setup, Started, start};
use run_gates::Gate;
use stat_defs::{NoMemory, Reported};
use stats_io::Source;
use std::alloc::Global;
use std::sync::Wait;
use std::thread::Threads;
use worker_run::Given;

/// Runs the files side by side, each with a worker of its own, beside a flusher and a reader that make as many flushes
/// and readings as the configuration asks for, and gives the report with the names in its log. Each event, flush and
/// reading waits for the gate.
///
/// All threads have ended when it returns. Where a worker is out of memory, the flusher and the reader make no further
/// round, and whatever comes the gate is told once of each worker that is done.
pub fn run_files<R: Threads + Wait + Sync, G: Gate + Sync, S: Source + Drop + Send>(
    rt: &R,
    alloc: Global,
    gate: &G,
    setup: Setup<'_>,
    files: Vec<Given<S>>,
) -> Result<Reported, NoMemory>
    requires config { IsConfig setup.config.now }
    requires built { (setup.rules ≡ setup.config.now.tags) × (setup.matcher ≡ setup.config.now.matcher) }
    requires files { (1 ≤ length files.items) × (length files.items ≤ MAX_WORKERS) }
    ensures report { IfOk result (λ made. IsRunOfGiven S.state setup.entry.config.now files.items made.report) }
    ensures names { IfOk result (HasNames (plan_of setup.entry.config.now).rules (length files.items)) }
{
    let started = start(alloc, setup, files)?;
    let Started { store, sides, jobs } = started;
    let Ok(done) = run_parties(rt, alloc, gate, &store, Parties { sides, jobs }) else {
        drop(store);
        return Err(NoMemory);
    };
    report_of(alloc, store, done)
}
