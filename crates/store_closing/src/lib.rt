//! The end of a store that threads share, once its workers, its flusher and its reader are done: the last flush, and the
//! whole log. Nothing waits.
#![tactic(auto)]

mod closing;
mod last_words;
mod sorted;
mod sorting;

pub use closing::close_store;
