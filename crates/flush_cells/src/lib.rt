//! The flusher's side of all workers' cells: how it asks each worker for its half, takes the halves that are turned,
//! and merges them. Nothing waits.
#![tactic(auto)]

mod asking;
mod cells;
mod laws;
mod one;
mod passing;
mod tokens;

pub use cells::FlushCells;
pub use laws::{a_pass_tells_the_least, halves_stay_in_step};
pub use passing::Pass;
pub use tokens::{FlushCell, MAX_CELLS};
