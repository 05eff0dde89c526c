//! Workers that pass a gate before each event.

use crate::timing::{COUNTED, no_memory, print_per_call};
use run_gates::{Gate, PaceGate};
use stat_defs::NoMemory;
use std::alloc::Global;
use std::io;
use std::io::Print;
use std::sync::Wait;
use std::thread::{self, Threads};
use std::time::{Clock, Instant};

/// Events of each worker where they are timed.
const TIMED: u32 = 100_000_000;

fn pass<R: Wait>(rt: &R, gate: &PaceGate, worker: u32, events: u32) {
    for event in 1..=u64::from(events) {
        gate.worker_at(rt, worker, event);
    }
    gate.worker_done(rt, worker);
}

// Each worker passes the gate before so many events. The result is the workers that returned.
fn pass_all<R: Threads + Wait + Sync>(
    rt: &R,
    alloc: Global,
    workers: u32,
    every: u32,
    events: u32,
) -> Result<usize, NoMemory> {
    let gate = PaceGate::new(alloc, workers, every)?;
    let mut numbers = Vec::new(alloc);
    for worker in 1..=workers {
        numbers.push(worker)?;
    }
    let run = |worker: u32| -> () { pass(rt, &gate, worker, events) };
    match thread::map_vec(rt, numbers, &run) {
        Ok(returned) => Ok(returned.len()),
        Err(_) => Err(NoMemory),
    }
}

/// Prints how many workers returned from a gate.
pub fn count<R: Threads + Wait + Sync + Print + AllocGlobal>(rt: &R) -> io::Result<()> {
    let returned = pass_all(rt, rt.alloc(), 4, 100, COUNTED).map_err(no_memory)?;
    println!(rt; "a gate: {returned} workers")
}

/// Prints the time of an event at gates of one and of four workers.
pub fn time<R: Threads + Wait + Sync + Print + Clock + AllocGlobal>(rt: &R) -> io::Result<()> {
    time_one(rt, "worker_at, one worker, rounds of 1,000", 1, 1_000)?;
    time_one(rt, "worker_at, four workers, rounds of 1,000", 4, 1_000)?;
    time_one(rt, "worker_at, four workers, rounds of 100", 4, 100)?;
    time_one(rt, "worker_at, four workers, rounds of 4", 4, 4)
}

fn time_one<R: Threads + Wait + Sync + Print + Clock + AllocGlobal>(
    rt: &R,
    name: &str,
    workers: u32,
    every: u32,
) -> io::Result<()> {
    let start = Instant::now(rt)?;
    pass_all(rt, rt.alloc(), workers, every, TIMED).map_err(no_memory)?;
    print_per_call(rt, name, start, TIMED)
}
