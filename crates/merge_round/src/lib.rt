//! Histograms merged: halves that workers fill, and parents that a flusher merges them into.
#![tactic(auto)]

mod half;
mod laws;
mod listing;
mod merged;
mod parents;
mod slots;
mod tables;
mod workers;

pub use half::{Half, MAX_HALF_COUNT};
pub use laws::{half_law, thread_law};
pub use parents::Parents;
