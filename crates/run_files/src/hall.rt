//! What the threads of a run share.

use crate::bell::Bell;
use run_gates::Gate;
use std::alloc::Global;
use std::sync::Wait;
use std::sync::atomic::{AtomicBool, Ordering};
use store_parts::Store;
use worker_run::WorkerGate;

/// The runtime, the gate and the store; the bell for the flusher; whether a thread is out of memory, so that the others
/// need not go on; and for each worker, in order, whether the gate was told that it is done.
///
/// It is the gate that its workers go through: the run's own, and the bell.
#[derive(Drop)]
pub(crate) struct Hall<'a, R: Wait, G: Gate> {
    pub(crate) rt: &'a R,
    pub(crate) alloc: Global,
    pub(crate) gate: &'a G,
    pub(crate) store: &'a Store,
    pub(crate) bell: &'a Bell,
    pub(crate) stop: &'a AtomicBool,
    pub(crate) told: &'a [AtomicBool],
}

impl<R: Wait, G: Gate> Hall<'_, R, G> {
    // A thread is out of memory.
    pub(crate) fn stop_all(&self) {
        self.stop.store(true, Ordering::SeqCst);
        self.bell.ring(self.rt);
    }

    pub(crate) fn is_stopped(&self) -> bool {
        self.stop.load(Ordering::SeqCst)
    }

    // Tells the gate that this worker is done. Its cell was left, or the run stops.
    pub(crate) fn tell_done(&self, worker: u32) {
        if let Some(flag) = self.told.get(worker.wrapping_sub(1) as usize) {
            flag.store(true, Ordering::SeqCst);
        }
        self.bell.ring_if_asked(self.rt, worker);
        self.gate.worker_done(self.rt, worker);
    }

    // Tells the gate of each worker that is done without having told it.
    pub(crate) fn tell_rest(&self) {
        let mut worker = 0u32;
        for flag in self.told {
            worker = worker.wrapping_add(1);
            if !flag.load(Ordering::SeqCst) {
                self.gate.worker_done(self.rt, worker);
            }
        }
    }
}

impl<R: Wait, G: Gate> Gate for Hall<'_, R, G> {
    #[inline(always)]
    fn worker_at<Q: Wait>(&self, rt: &Q, worker: u32, event: u64) {
        self.gate.worker_at(rt, worker, event);
    }

    fn worker_done<Q: Wait>(&self, rt: &Q, worker: u32) {
        self.gate.worker_done(rt, worker);
    }

    fn flusher_at<Q: Wait>(&self, rt: &Q, round: u32) {
        self.gate.flusher_at(rt, round);
    }

    fn reader_at<Q: Wait>(&self, rt: &Q, round: u32) {
        self.gate.reader_at(rt, round);
    }
}

impl<R: Wait, G: Gate> WorkerGate for Hall<'_, R, G> {
    fn worker_turned<Q: Wait>(&self, rt: &Q, worker: u32) {
        self.bell.ring_if_asked(rt, worker);
    }
}
