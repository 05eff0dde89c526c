//! Files that are replayed one after another over a store on one thread.
#![tactic(auto)]

mod reading;
mod replaying;

pub use replaying::{replay_files, report_of};
