//! What a worker is given, and what it gives back.

use recorder::{Ended, Recorder};
use stat_defs::{Verdict, WorkerEnd};

/// A file for a worker: a source, or a file that could not be opened.
#[derive(Drop)]
pub enum Given<S> {
    Opened(S),
    Missing,
}

/// A worker that waits to be started. Workers are numbered from 1.
#[derive(Drop)]
pub struct Job<S> {
    pub recorder: Recorder,
    pub number: u32,
    pub given: Given<S>,
}

/// What a worker did: its events' verdicts in order, how its file ended, and what its recorder left.
#[derive(Drop)]
pub struct Worked {
    pub verdicts: Vec<Verdict>,
    pub end: WorkerEnd,
    pub ended: Ended,
}
