//! What the threads of a run call before they go on.

use std::sync::Wait;

/// What each thread of a run calls before its next event, flush or reading. Each call may wait.
///
/// Workers, events of a worker, flushes and readings are numbered from 1.
pub trait Gate {
    /// Called by a worker before it does its event of this number.
    fn worker_at<R: Wait>(&self, rt: &R, worker: u32, event: u64);

    /// Called once by each worker, when it does no more events.
    fn worker_done<R: Wait>(&self, rt: &R, worker: u32);

    /// Called by the flusher, which is one thread, before its flush of this number.
    fn flusher_at<R: Wait>(&self, rt: &R, round: u32);

    /// Called by the reader, which is one thread, before its reading of this number.
    fn reader_at<R: Wait>(&self, rt: &R, round: u32);
}
