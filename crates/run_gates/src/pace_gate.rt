//! Rounds that are paced by events.
ghost use Rattle.std.specs.Prelude.{◌≡◌, IfOk};

use crate::gate::Gate;
use crate::pace::Pace;
use stat_defs::NoMemory;
use std::alloc::Global;
use std::sync::atomic::{AtomicU64, Ordering};
use std::sync::{Condvar, Mutex, Wait};

/// What the workers tell the waiting flusher and reader, which are one thread each.
///
/// A wake-up takes a worker as long as a hundred events. So it wakes one sleeper at most: the flusher where it sleeps,
/// which then wakes the reader, and else the reader.
///
/// No wake-up is lost. Flusher and reader look at both counts while they have the lock, and give it up only as they
/// fall asleep. A worker adds to a count first, and then takes the lock once. Who takes the lock behind it sees the
/// addition. Who took it before sleeps by then: the flusher has said so, and is woken, and the reader is woken by the
/// worker where the flusher is awake, and else by the flusher as soon as that has the lock again, which it takes behind
/// the worker.
#[derive(Drop)]
struct Told {
    /// The events that were counted, and the workers that are done.
    events: AtomicU64,
    done: AtomicU64,
    /// Whether the flusher sleeps: true from its falling asleep until it has the lock again.
    sleeps: Mutex<bool>,
    flusher: Condvar,
    reader: Condvar,
}

/// Flush `r` and reading `r` wait until `r` times `flush_every` events were done, or all workers are done.
///
/// An event is done when its worker calls `worker_at` for the next one. A round may begin late, by fewer events than
/// one round needs or than there are workers, and never early: see [`Pace`]. The last events of a worker, which make no
/// whole packet, are not counted.
/// What each event reads lies apart from the words that workers write, so that a worker's next event finds it in its
/// core's cache. The lock is taken where the count passes a multiple of `flush_every`, by the one worker whose addition
/// passes it, and at a worker's end.
#[derive(Drop)]
pub struct PaceGate {
    pub pace: Pace,
    told: Box<Told>,
}

impl PaceGate {
    /// The gate of so many workers. It takes a little memory.
    pub fn new(alloc: Global, workers: u32, flush_every: u32) -> Result<PaceGate, NoMemory>
        ensures { IfOk result (λ gate. (gate.pace.workers ≡ workers) × (gate.pace.every ≡ flush_every)) }
    {
        let told = Told {
            events: AtomicU64::new(0),
            done: AtomicU64::new(0),
            sleeps: Mutex::new(false),
            flusher: Condvar::new(),
            reader: Condvar::new(),
        };
        Ok(PaceGate {
            pace: Pace::new(workers, flush_every),
            told: Box::new(alloc, told)?,
        })
    }

    fn add<R: Wait>(&self, rt: &R, more: u64) {
        let before = self.told.events.fetch_add(more, Ordering::SeqCst);
        let every = u64::from(self.pace.every.max(1));
        if before / every != before.wrapping_add(more) / every {
            self.told.wake(rt);
        }
    }

    fn is_due(&self, round: u32) -> bool {
        self.told.events.load(Ordering::SeqCst) >= self.pace.need(round)
            || self.told.done.load(Ordering::SeqCst) >= u64::from(self.pace.workers)
    }
}

impl Told {
    // Wakes one sleeper, with the lock given back, since who is woken takes it first.
    fn wake<R: Wait>(&self, rt: &R) {
        let sleeps = self.sleeps.lock(rt);
        let flusher_sleeps = *sleeps;
        drop(sleeps);
        if flusher_sleeps {
            self.flusher.notify_one();
        } else {
            self.reader.notify_one();
        }
    }
}

impl Gate for PaceGate {
    fn worker_at<R: Wait>(&self, rt: &R, _worker: u32, event: u64) {
        let more = self.pace.to_add(event);
        if more > 0 {
            self.add(rt, more);
        }
    }

    fn worker_done<R: Wait>(&self, rt: &R, _worker: u32) {
        self.told.done.fetch_add(1, Ordering::SeqCst);
        self.told.wake(rt);
    }

    fn flusher_at<R: Wait>(&self, rt: &R, round: u32) {
        let told = &self.told;
        let mut sleeps = told.sleeps.lock(rt);
        for _ in rt.forever() {
            if self.is_due(round) {
                break;
            }
            *sleeps = true;
            sleeps = told.flusher.wait(rt, sleeps);
            *sleeps = false;
            told.reader.notify_one();
        }
        drop(sleeps);
    }

    fn reader_at<R: Wait>(&self, rt: &R, round: u32) {
        let told = &self.told;
        let turn = told
            .reader
            .wait_while(rt, told.sleeps.lock(rt), |_| !self.is_due(round));
        drop(turn);
    }
}
