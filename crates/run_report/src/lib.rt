//! The report of files that are read and applied side by side, a worker a file, over a store that threads share.
#![tactic(auto)]

mod ends;
mod openings;
mod running;

pub use running::run_names;
