//! What the flusher and the reader do with the words of lists of metrics: latches of counters, loads of counters and of
//! gauges, and the end of both banks, where the flusher's seats take in those of all others.
//!
//! Nothing here waits. Each list is filled where the caller has taken its memory, so that no step is made in vain.
#![tactic(auto)]

mod counter_ends;
mod gauge_ends;
mod latching;
mod loading;

pub use counter_ends::{CounterEnds, close_counters, take_workers};
pub use gauge_ends::{load_last, take_gauges};
pub use latching::latch_into;
pub use loading::{load_into, read_into};
