//! A store with its parties, between two calls of a script.

use admin_side::Admin;
use flusher::Flusher;
use recorder::{Ended, Recorder};
use store_parts::Store;

/// A worker and how many events it was given, or what it left.
#[derive(Drop)]
pub(crate) enum Worker {
    AtWork(Recorder, u32),
    Left(Ended),
}

/// The flusher between two rounds, in a round, or in a round of which all halves were taken.
pub(crate) enum Rounds {
    Between(Flusher),
    Begun(Flusher),
    Taken(Flusher),
}

/// A store with one worker or two, its flusher and its reader.
pub(crate) struct Parties {
    pub(crate) store: Store,
    pub(crate) first: Worker,
    pub(crate) second: Option<Worker>,
    pub(crate) rounds: Rounds,
    pub(crate) admin: Admin,
}
