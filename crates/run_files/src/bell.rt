//! What the flusher sleeps on while it waits for a worker.

use std::hint::spin_loop;
use std::sync::atomic::{AtomicU32, Ordering};
use std::sync::{Condvar, Mutex, Wait};

/// How often the flusher looks at the cells before it asks a worker to ring. A worker that has a processor turns its
/// half sooner than a thread falls asleep and wakes.
const EAGER_LOOKS: u32 = 32;

/// A bell, by which a worker that turned its half wakes the flusher. The flusher sleeps meanwhile, so that a worker
/// without a processor gets the flusher's.
///
/// No wake-up is lost. The flusher asks a worker to ring, looks at the cells once more, and sleeps where that worker's
/// half is not there. The worker turns its half, or leaves its cell, and looks then whether it is asked. A half that
/// the flusher did not find was turned behind its look, so that worker finds itself asked, and rings. A ring is kept
/// until the flusher takes it.
#[derive(Drop)]
pub(crate) struct Bell {
    /// The worker that is asked to ring, or 0.
    asked: AtomicU32,
    /// Whether it rang since the flusher woke last.
    rang: Mutex<bool>,
    flusher: Condvar,
}

impl Bell {
    pub(crate) fn new() -> Bell {
        Bell {
            asked: AtomicU32::new(0),
            rang: Mutex::new(false),
            flusher: Condvar::new(),
        }
    }

    /// Wakes the flusher, or keeps it from falling asleep once.
    pub(crate) fn ring<R: Wait>(&self, rt: &R) {
        let mut rang = self.rang.lock(rt);
        *rang = true;
        drop(rang);
        self.flusher.notify_one();
    }

    /// The same if this worker is asked to. For a worker whose half has changed hands.
    pub(crate) fn ring_if_asked<R: Wait>(&self, rt: &R, worker: u32) {
        let asked = &self.asked;
        if asked.load(Ordering::SeqCst) != worker {
            return;
        }
        // The flusher may ask another one meanwhile.
        let mine = asked.compare_exchange(worker, 0, Ordering::SeqCst, Ordering::SeqCst);
        if mine.is_ok() {
            self.ring(rt);
        }
    }

    /// For the flusher, behind so many looks of which the last did not find the half of this worker. It returns soon, or
    /// once the worker rang, which was asked before that look.
    pub(crate) fn wait<R: Wait>(&self, rt: &R, looks: u32, worker: u32) {
        if looks < EAGER_LOOKS {
            spin_loop();
        } else if self.asked.load(Ordering::SeqCst) != worker {
            self.asked.store(worker, Ordering::SeqCst);
        } else {
            self.sleep(rt);
        }
    }

    fn sleep<R: Wait>(&self, rt: &R) {
        let mut rang = self
            .flusher
            .wait_while(rt, self.rang.lock(rt), |rang| !*rang);
        *rang = false;
        drop(rang);
    }
}
