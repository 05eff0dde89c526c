//! How the threads of a run return.
ghost use Rattle.std.specs.Prelude.{◌≡◌, [], Ok, All, IfOk};
ghost use Rattle.std.specs.Result.{IsOkAnd};
ghost use Rattle.run_files.specs.Workers.{IsReady};
ghost use Rattle.run_files.specs.Flushes.{HasFlushed};
ghost use Rattle.run_files.specs.Readings.{HasRead};
ghost use Rattle.run_files.specs.Gathering.{AreGathered};
ghost use Rattle.run_files.specs.Returning.{AreBack};

use crate::bell::Bell;
use crate::flushes::Flushings;
use crate::gathering::{Gathered, gather};
use crate::hall::Hall;
use crate::readings::Readings;
use crate::side_by_side::{Sides, SidesDone, run_all};
use run_gates::Gate;
use stat_defs::NoMemory;
use stats_io::Source;
use std::alloc::Global;
use std::sync::Wait;
use std::sync::atomic::AtomicBool;
use std::thread::Threads;
use store_parts::Store;
use worker_run::{Job, Worked};

/// What the flusher, the reader and the workers did, once all of them have returned.
#[derive(Drop)]
pub(crate) struct Returned {
    pub(crate) flushings: Flushings,
    pub(crate) readings: Readings,
    pub(crate) gathered: Gathered,
}

// What all did, where none of them wanted memory.
fn put_together(
    alloc: Global,
    sides: SidesDone,
    results: Result<Vec<Result<Worked, NoMemory>>, NoMemory>,
) -> Result<Returned, NoMemory>
    ensures flushings { IfOk result (λ done. sides.0 ≡ Ok done.flushings) }
    ensures readings { IfOk result (λ done. sides.1 ≡ Ok done.readings) }
    ensures gathered { IfOk result (λ done. IsOkAnd results (λ list. AreGathered list.items done.gathered)) }
{
    let (flushings, readings) = sides;
    let Ok(results) = results else {
        drop(flushings);
        drop(readings);
        return Err(NoMemory);
    };
    let Ok(gathered) = gather(alloc, results) else {
        drop(flushings);
        drop(readings);
        return Err(NoMemory);
    };
    let Ok(flushings) = flushings else {
        drop(readings);
        drop(gathered);
        return Err(NoMemory);
    };
    let Ok(readings) = readings else {
        drop(flushings);
        drop(gathered);
        return Err(NoMemory);
    };
    Ok(Returned {
        flushings,
        readings,
        gathered,
    })
}

// A flag for each worker, which the gate was not told of yet.
fn flags(alloc: Global, workers: usize) -> Result<Vec<AtomicBool>, NoMemory> {
    let mut told = Vec::new(alloc);
    for _ in 0..workers {
        told.push(AtomicBool::new(false))?;
    }
    Ok(told)
}

/// All who work on a store: the flusher with the reader, and what each worker gets.
#[derive(Drop)]
pub(crate) struct Parties<S: Drop> {
    pub(crate) sides: Sides,
    pub(crate) jobs: Vec<Job<S>>,
}

/// Runs the parties of a store side by side, until all of them have returned.
pub(crate) fn run_parties<R: Threads + Wait + Sync, G: Gate + Sync, S: Source + Drop + Send>(
    rt: &R,
    alloc: Global,
    gate: &G,
    store: &Store,
    parties: Parties<S>,
) -> Result<Returned, NoMemory>
    requires flusher { HasFlushed store.now [] parties.sides.flusher }
    requires reader { HasRead store.now [] parties.sides.admin }
    requires workers { All (IsReady store.now) parties.jobs.items }
    ensures { IfOk result (AreBack S.state store.now parties.sides parties.jobs.items) }
{
    let Parties { sides, jobs } = parties;
    let Ok(told) = flags(alloc, jobs.len()) else {
        drop(sides);
        drop(jobs);
        return Err(NoMemory);
    };
    let bell = Bell::new();
    let stop = AtomicBool::new(false);
    let hall = Hall {
        rt,
        alloc,
        gate,
        store,
        bell: &bell,
        stop: &stop,
        told: told.as_slice(),
    };
    let (sides, results) = run_all(&hall, sides, jobs);
    put_together(alloc, sides, results)
}
