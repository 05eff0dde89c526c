//! A run of scripts, side by side.
ghost use Rattle.std.specs.Prelude.{◌≡◌, ◌≤◌, All, IfOk};
ghost use Rattle.stat_defs.specs.Configs.{IsConfig};
ghost use Rattle.stat_defs.specs.declared.reports.FileEnd.TheVariants.{Whole};
ghost use Rattle.ledger.specs.Ledger.{HasNames, plan_of};
ghost use Rattle.load_scripts.specs.declared.limits.TheConstants.{MAX_SCRIPTS, MAX_SCRIPT_EVENTS};
ghost use Rattle.load_run.specs.LoadRun.{IsLoadRunOf};
ghost use Rattle.load_run.specs.Files.{script_files};

use run_files::{Setup, run_files};
use run_gates::PaceGate;
use script_source::ScriptSource;
use stat_defs::{NoMemory, Reported};
use std::alloc::Global;
use std::sync::Wait;
use std::thread::Threads;
use worker_run::Given;

// The scripts as files, in order. They are numbered from 1.
fn files_of(alloc: Global, scripts: u32, events: u32) -> Result<Vec<Given<ScriptSource>>, NoMemory>
    ensures { IfOk result (λ files. files.items ≡ script_files scripts events) }
{
    let mut files = Vec::new(alloc);
    for at in 0..scripts {
        files.push(Given::Opened(ScriptSource::new(at + 1, events)))?;
    }
    Ok(files)
}

/// Runs so many scripts of so many events each side by side, each with a worker of its own, beside a flusher and a
/// reader that are paced by events. A script's lines are made as its worker reads them, so that its text is never held
/// whole. May wait.
pub fn run_scripts<R: Threads + Wait + Sync>(
    rt: &R,
    alloc: Global,
    setup: Setup<'_>,
    scripts: u32,
    events: u32,
) -> Result<Reported, NoMemory>
    requires config { IsConfig setup.config.now }
    requires built { (setup.rules ≡ setup.config.now.tags) × (setup.matcher ≡ setup.config.now.matcher) }
    requires some { 1 ≤ scripts }
    requires scripts { scripts ≤ MAX_SCRIPTS }
    requires events { events ≤ MAX_SCRIPT_EVENTS }
    ensures ledger { IfOk result (λ made. IsLoadRunOf setup.entry.config.now scripts events made.report) }
    ensures ends { IfOk result (λ made. All (λ end. end.end ≡ Whole) made.report.ends) }
    ensures names { IfOk result (HasNames (plan_of setup.entry.config.now).rules scripts) }
{
    let gate = PaceGate::new(alloc, scripts, setup.config.flush_every)?;
    let files = files_of(alloc, scripts, events)?;
    run_files(rt, alloc, &gate, setup, files)
}
