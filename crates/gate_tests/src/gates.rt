//! Workers, flusher and reader under a gate that paces them by events. The workers count in one word after each event,
//! so the word has no more than the events that were done.

use run_gates::{Gate, PaceGate};
use std::alloc::Global;
use std::sync::Wait;
use std::sync::atomic::{AtomicU64, Ordering};
use std::test::Fail;
use std::thread::{self, Threads, join};

/// What a run of a gate is about.
#[derive(Clone, Copy)]
struct Shape {
    workers: u32,
    events: u64,
    every: u32,
    flushes: u32,
    reads: u32,
}

fn work<R: Wait>(rt: &R, gate: &PaceGate, done: &AtomicU64, worker: u32, events: u64) {
    for event in 1..=events {
        gate.worker_at(rt, worker, event);
        done.fetch_add(1, Ordering::SeqCst);
    }
    gate.worker_done(rt, worker);
}

// Whether a round that begins now is due: so many events were done, or all of them.
fn is_due(shape: Shape, done: &AtomicU64, round: u32) -> bool {
    let done = done.load(Ordering::SeqCst);
    let need = u64::from(round) * u64::from(shape.every);
    done >= need || done >= u64::from(shape.workers).saturating_mul(shape.events)
}

// How many flushes began early.
fn flush<R: Wait>(rt: &R, gate: &PaceGate, done: &AtomicU64, shape: Shape) -> u32 {
    let mut early = 0u32;
    for round in 1..=shape.flushes {
        gate.flusher_at(rt, round);
        if !is_due(shape, done, round) {
            early = early.saturating_add(1);
        }
    }
    early
}

// How many readings began early.
fn read<R: Wait>(rt: &R, gate: &PaceGate, done: &AtomicU64, shape: Shape) -> u32 {
    let mut early = 0u32;
    for round in 1..=shape.reads {
        gate.reader_at(rt, round);
        if !is_due(shape, done, round) {
            early = early.saturating_add(1);
        }
    }
    early
}

fn work_all<R: Threads + Wait + Sync>(
    rt: &R,
    gate: &PaceGate,
    done: &AtomicU64,
    workers: Vec<u32>,
    events: u64,
) -> usize {
    let run = |worker: u32| -> () { work(rt, gate, done, worker, events) };
    match thread::map_vec(rt, workers, &run) {
        Ok(all) => all.len(),
        Err(_) => 0,
    }
}

fn flush_and_read<R: Threads + Wait + Sync>(
    rt: &R,
    gate: &PaceGate,
    done: &AtomicU64,
    shape: Shape,
) -> (u32, u32) {
    join(
        rt,
        || -> u32 { flush(rt, gate, done, shape) },
        || -> u32 { read(rt, gate, done, shape) },
    )
}

// The flushes and the readings that began early, and the workers that returned.
fn run<R: Threads + Wait + Sync>(
    rt: &R,
    alloc: Global,
    shape: Shape,
) -> Result<((u32, u32), usize), Fail> {
    let gate = PaceGate::new(alloc, shape.workers, shape.every)?;
    let done = AtomicU64::new(0);
    let mut workers = Vec::with_capacity(alloc, 0)?;
    for worker in 1..=shape.workers {
        workers.push(worker)?;
    }
    Ok(run_under(rt, &gate, &done, shape, workers))
}

fn run_under<R: Threads + Wait + Sync>(
    rt: &R,
    gate: &PaceGate,
    done: &AtomicU64,
    shape: Shape,
    workers: Vec<u32>,
) -> ((u32, u32), usize) {
    join(
        rt,
        || -> (u32, u32) { flush_and_read(rt, gate, done, shape) },
        || -> usize { work_all(rt, gate, done, workers, shape.events) },
    )
}

#[test]
fn no_round_begins_early(rt: HostRuntime) -> Result<(), Fail> {
    let shape = Shape {
        workers: 8,
        events: 4_000,
        every: 800,
        flushes: 40,
        reads: 40,
    };
    let (early, returned) = run(&rt, rt.alloc(), shape)?;
    assert!(rt; early == (0, 0) && returned == 8);
    Ok(())
}

// No round has its events before all workers are done.
#[test]
fn workers_that_are_done_let_rounds_go(rt: HostRuntime) -> Result<(), Fail> {
    let shape = Shape {
        workers: 3,
        events: 10,
        every: 1_000,
        flushes: 5,
        reads: 5,
    };
    let (early, returned) = run(&rt, rt.alloc(), shape)?;
    assert!(rt; early == (0, 0) && returned == 3);
    Ok(())
}

// A reader is woken by the flusher, which may make no rounds, or fewer than the reader, or others.
#[test]
fn a_reader_beside_few_flushes(rt: HostRuntime) -> Result<(), Fail> {
    for (flushes, reads) in [(0, 40), (7, 40), (40, 7), (40, 0)] {
        let shape = Shape {
            workers: 3,
            events: 4_000,
            every: 300,
            flushes,
            reads,
        };
        let (early, returned) = run(&rt, rt.alloc(), shape)?;
        assert!(rt; early == (0, 0) && returned == 3);
    }
    Ok(())
}

// Each event counts alone where a round needs fewer events than there are workers.
#[test]
fn rounds_of_one_event(rt: HostRuntime) -> Result<(), Fail> {
    let shape = Shape {
        workers: 4,
        events: 50,
        every: 1,
        flushes: 64,
        reads: 64,
    };
    let (early, returned) = run(&rt, rt.alloc(), shape)?;
    assert!(rt; early == (0, 0) && returned == 4);
    Ok(())
}

// Four of five events are done, in packets of two, which are enough for a round of three.
#[test]
fn a_round_begins_with_its_events(rt: HostRuntime) -> Result<(), Fail> {
    let gate = PaceGate::new(rt.alloc(), 1, 3)?;
    for event in 1..=5 {
        gate.worker_at(&rt, 1, event);
    }
    gate.flusher_at(&rt, 1);
    gate.reader_at(&rt, 1);
    assert!(rt; gate.pace.bits == 1);
    Ok(())
}
