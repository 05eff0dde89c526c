//! The workers of a run.
ghost use Rattle.std.specs.Prelude.{All, IfOk};
ghost use Rattle.std.specs.List.{AllZip};
ghost use Rattle.worker_run.specs.Working.{IsWorked};
ghost use Rattle.run_files.specs.Workers.{IsReady};

use crate::hall::Hall;
use run_gates::Gate;
use stat_defs::NoMemory;
use stats_io::Source;
use std::sync::Wait;
use std::thread::{Threads, map_vec};
use worker_run::{Job, Worked, work};

/// Runs one worker to its end. Whatever comes, the gate is told that it is done; without memory the run stops.
pub(crate) fn work_told<R: Wait, G: Gate, S: Source + Drop>(
    hall: &Hall<'_, R, G>,
    job: Job<S>,
) -> Result<Worked, NoMemory>
    requires { IsReady hall.now.store.now job }
    ensures { IfOk result (IsWorked S.state hall.now.store.now job.number job.given) }
{
    let number = job.number;
    let outcome = work(hall.rt, hall.alloc, hall, hall.store, job);
    if outcome.is_err() {
        hall.stop_all();
    }
    hall.tell_done(number);
    outcome
}

/// Runs the workers side by side, each in a thread of its own where one can be made. Where there is no
/// memory for the threads, the run stops, and the gate is told of the workers that were not started.
pub(crate) fn work_all<R: Threads + Wait + Sync, G: Gate + Sync, S: Source + Drop + Send>(
    hall: &Hall<'_, R, G>,
    jobs: Vec<Job<S>>,
) -> Result<Vec<Result<Worked, NoMemory>>, NoMemory>
    requires { All (IsReady hall.now.store.now) jobs.items }
    ensures { IfOk result (λ results.
        AllZip (λ job done. IfOk done (IsWorked S.state hall.now.store.now job.number job.given))
        jobs.items results.items) }
{
    let run = |job: Job<S>| -> Result<Worked, NoMemory>
        requires { IsReady hall.now.store.now job }
        ensures { IfOk result (IsWorked S.state hall.entry.now.store.now job.number job.given) }
    { work_told(hall, job) };
    match map_vec(hall.rt, jobs, &run) {
        Ok(results) => Ok(results),
        Err(_) => {
            hall.stop_all();
            hall.tell_rest();
            Err(NoMemory)
        }
    }
}
