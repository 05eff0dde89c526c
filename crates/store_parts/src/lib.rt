//! What the workers, the flusher and the reader of a store share.
#![tactic(auto)]

mod store;

pub use store::Store;
