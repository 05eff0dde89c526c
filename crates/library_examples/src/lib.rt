//! The store used as a library: functions to copy from, and the law that what a store gives can be shown.
#![tactic(auto)]

mod counting;
mod flushing;
mod laws;
mod reading;
mod showing;

pub use counting::{count_in_turn, count_lines, count_often, count_twice};
pub use flushing::flush_often;
pub use laws::stores_show;
pub use reading::{LinesApplied, apply_lines, flush_in_turn, flush_lines};
pub use showing::shown_of;
