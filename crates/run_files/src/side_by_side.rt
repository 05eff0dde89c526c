//! The threads of a run, side by side.
ghost use Rattle.std.specs.Prelude.{[], All, IfOk};
ghost use Rattle.std.specs.List.{AllZip};
ghost use denote.Param.Send.{IsSync, IsSend};
ghost use Rattle.worker_run.specs.Working.{IsWorked};
ghost use Rattle.run_files.specs.Workers.{IsReady};
ghost use Rattle.run_files.specs.Flushes.{HasFlushed, AreFlushings};
ghost use Rattle.run_files.specs.Readings.{HasRead, AreReadings};

use crate::flushes::{Flushings, flush_all};
use crate::hall::Hall;
use crate::readings::{Readings, read_all};
use crate::workers::work_all;
use admin_side::Admin;
use flusher::Flusher;
use run_gates::Gate;
use stat_defs::NoMemory;
use stats_io::Source;
use std::sync::Wait;
use std::thread::{Threads, join};
use worker_run::{Job, Worked};

/// The flusher and the reader of a run, and how many flushes and readings they make.
#[derive(Drop)]
pub(crate) struct Sides {
    pub(crate) flusher: Flusher,
    pub(crate) flushes: u32,
    pub(crate) admin: Admin,
    pub(crate) reads: u32,
}

/// What the flusher did, and what the reader did.
pub(crate) type SidesDone = (Result<Flushings, NoMemory>, Result<Readings, NoMemory>);

// The flusher beside the reader.
fn flush_and_read<R: Threads + Wait + Sync, G: Gate + Sync>(
    hall: &Hall<'_, R, G>,
    flusher: Flusher,
    flushes: u32,
    admin: Admin,
    reads: u32,
) -> (Result<Flushings, NoMemory>, Result<Readings, NoMemory>)
    requires flusher { HasFlushed hall.now.store.now [] flusher }
    requires reader { HasRead hall.now.store.now [] admin }
    ensures flusher { IfOk result.0 (AreFlushings hall.now.store.now flushes) }
    ensures reader { IfOk result.1 (AreReadings hall.now.store.now reads) }
{
    let Hall {
        rt,
        alloc,
        gate,
        store,
        bell,
        stop,
        told,
    } = *hall;
    join(
        rt,
        || -> Result<Flushings, NoMemory>
            requires { HasFlushed store.now [] flusher }
            ensures { IfOk result (AreFlushings store.entry.now flushes) }
        {
            flush_all(
                &Hall {
                    rt,
                    alloc,
                    gate,
                    store,
                    bell,
                    stop,
                    told,
                },
                flusher,
                flushes,
            )
        },
        || -> Result<Readings, NoMemory>
            requires { HasRead store.now [] admin }
            ensures { IfOk result (AreReadings store.entry.now reads) }
        {
            read_all(
                &Hall {
                    rt,
                    alloc,
                    gate,
                    store,
                    bell,
                    stop,
                    told,
                },
                admin,
                reads,
            )
        },
    )
}

// Both sides of a run.
fn run_sides<R: Threads + Wait + Sync, G: Gate + Sync>(
    hall: &Hall<'_, R, G>,
    sides: Sides,
) -> SidesDone
    requires flusher { HasFlushed hall.now.store.now [] sides.flusher }
    requires reader { HasRead hall.now.store.now [] sides.admin }
    ensures flusher { IfOk result.0 (AreFlushings hall.now.store.now sides.flushes) }
    ensures reader { IfOk result.1 (AreReadings hall.now.store.now sides.reads) }
{
    let Sides {
        flusher,
        flushes,
        admin,
        reads,
    } = sides;
    flush_and_read(hall, flusher, flushes, admin, reads)
}

/// Runs the workers beside the flusher and the reader, until all of them are done. Where no thread can be made, the
/// workers run first, so that no round waits for them in vain.
pub(crate) fn run_all<R: Threads + Wait + Sync, G: Gate + Sync, S: Source + Drop + Send>(
    hall: &Hall<'_, R, G>,
    sides: Sides,
    jobs: Vec<Job<S>>,
) -> (SidesDone, Result<Vec<Result<Worked, NoMemory>>, NoMemory>)
    requires flusher { HasFlushed hall.now.store.now [] sides.flusher }
    requires reader { HasRead hall.now.store.now [] sides.admin }
    requires workers { All (IsReady hall.now.store.now) jobs.items }
    ensures flusher { IfOk result.0.0 (AreFlushings hall.now.store.now sides.flushes) }
    ensures reader { IfOk result.0.1 (AreReadings hall.now.store.now sides.reads) }
    ensures workers { IfOk result.1 (λ results.
        AllZip (λ job done. IfOk done (IsWorked S.state hall.now.store.now job.number job.given))
        jobs.items results.items) }
{
    let Hall {
        rt,
        alloc,
        gate,
        store,
        bell,
        stop,
        told,
    } = *hall;
    join(
        rt,
        || -> SidesDone
            requires { IsSync R.row × IsSync G.row
                × HasFlushed store.now [] sides.flusher × HasRead store.now [] sides.admin }
            ensures flusher { IfOk result.0 (AreFlushings store.entry.now sides.flushes) }
            ensures reader { IfOk result.1 (AreReadings store.entry.now sides.reads) }
        {
            run_sides(
                &Hall {
                    rt,
                    alloc,
                    gate,
                    store,
                    bell,
                    stop,
                    told,
                },
                sides,
            )
        },
        || -> Result<Vec<Result<Worked, NoMemory>>, NoMemory>
            requires { IsSync R.row × IsSync G.row × IsSend S.row × All (IsReady store.now) jobs.items }
            ensures { IfOk result (λ results. AllZip (λ job done.
                IfOk done (IsWorked S.state store.entry.now job.number job.given)) jobs.items results.items) }
        {
            work_all(
                &Hall {
                    rt,
                    alloc,
                    gate,
                    store,
                    bell,
                    stop,
                    told,
                },
                jobs,
            )
        },
    )
}
