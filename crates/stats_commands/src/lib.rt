//! The commands of the statistics store that start no thread: the words that say them, the statuses, and what is written
//! and said.
#![tactic(auto)]

mod bins;
mod check;
mod laws;
mod load;
mod outcome;
mod quiet;
mod replay;
mod status;
mod summing;
mod telling;

pub use laws::{calls_fail_by_cause, calls_keep_the_table};
pub use outcome::{Outcome, give_up, refuse_boot};
pub use quiet::{quiet_stats, quiet_stats_with, serve_quiet};
pub use replay::{Recorded, tell};
pub use status::{BAD_BOOT, BAD_FILE, DONE, NO_COMMAND, NO_MEMORY, UNREADABLE, UNWRITTEN};
pub use summing::tell_summary;
pub use telling::{OUT_OF_MEMORY, USAGE, say};
