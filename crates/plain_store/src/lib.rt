//! A store for one thread: its events are decided one after another by one worker, and its flushes show what was
//! accepted.
//!
//! The worker decides each event as one of many would: by what its seat holds, else by one call of the book, after an
//! acknowledgement where one is due. After want of memory it is safe to use, but its log may have entries of an event
//! that was not decided; whether this came to pass is told.
#![tactic(auto)]

mod account;
mod building;
mod last;
mod lists;
mod record;
mod seat;
mod store;
mod sums;
mod worker;

pub use store::PlainStore;
pub use worker::MAX_EVENTS;
