//! What a worker calls.

use run_gates::Gate;
use std::sync::Wait;

/// The gate of a worker, which is also told where a poll turned the worker's half.
pub trait WorkerGate: Gate {
    /// Called by a worker whose poll turned its half, once it has done the event behind that poll.
    fn worker_turned<R: Wait>(&self, rt: &R, worker: u32);
}
