//! The jobs of a run's workers.
ghost use Rattle.std.specs.Prelude.{◌≡◌, ◌<◌, ◌^◌, length, map, IfOk};
ghost use Rattle.ledger.specs.Lists.{EachNumbered};

use recorder::Recorder;
use stat_defs::NoMemory;
use std::alloc::Global;
use worker_run::{Given, Job};

/// A job for each recorder, with the file at its place. Workers are numbered from 1.
pub(crate) fn jobs_of<S: Drop>(
    alloc: Global,
    recorders: Vec<Recorder>,
    files: Vec<Given<S>>,
) -> Result<Vec<Job<S>>, NoMemory>
    requires all { length recorders.items ≡ length files.items }
    requires few { length files.items < 2 ^ 32 }
    ensures recorders { IfOk result (λ jobs. map (λ job. job.recorder) jobs.items ≡ recorders.items) }
    ensures files { IfOk result (λ jobs. map (λ job. job.given) jobs.items ≡ files.items) }
    ensures numbers { IfOk result (λ jobs. EachNumbered (λ number job. job.number ≡ number) 1 jobs.items) }
{
    let mut jobs = Vec::with_capacity(alloc, files.len())?;
    let mut waiting = recorders.into_iter();
    for given in files {
        let Some(recorder) = waiting.next() else {
            unreachable!();
        };
        let number = jobs.len() as u32 + 1;
        jobs.push_reserved(Job {
            recorder,
            number,
            given,
        });
    }
    Ok(jobs)
}
