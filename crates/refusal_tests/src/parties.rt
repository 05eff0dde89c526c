//! A store with its parties.

use admin_side::Admin;
use flusher::Flusher;
use recorder::Recorder;
use store_parts::Store;

/// A store with its one worker, its flusher and its reader.
#[derive(Drop)]
pub(crate) struct Parties {
    pub(crate) store: Store,
    pub(crate) recorder: Recorder,
    pub(crate) flusher: Flusher,
    pub(crate) admin: Admin,
}
