//! A source that is read as an event file: its events, how it ended, and why.
//!
//! What is done with the events is left to the crates above.
#![tactic(auto)]

mod laws;
mod limits;
mod opening;
mod reading;

pub use laws::each_unopened_file_has_its_fault;
pub use limits::MAX_FILES;
pub use opening::open_file;
pub use reading::{FileRun, end_of, event_or_end, not_opened};
