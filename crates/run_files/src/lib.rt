//! A run: workers, a flusher and a reader side by side over one store.
//!
//! Threads are started and joined here and nowhere else. Each of them does what the crates below say, and what it tells
//! is carried through the join.
#![tactic(auto)]

mod bell;
mod flushes;
mod gathering;
mod hall;
mod jobs;
mod readings;
mod reporting;
mod returning;
mod run;
mod side_by_side;
mod starting;
mod workers;

pub use run::run_files;
pub use starting::Setup;
