//! The events of an event file, line by line.
#![tactic(auto)]

mod buffer;
mod cutting;
mod events;
mod fronts;
mod lanes;
mod laws;
mod limits;
mod lines;
mod numbers;
mod parts;
mod step;
mod window;
mod words;
mod writing;

pub use laws::{
    answers_are_a_run, every_file_has_a_reading, file_is_single_valued, first_fault_stands,
    line_says_lawful_events, line_says_one_event, moves_compose, written_events_are_read,
    written_line_says_its_event,
};
pub use limits::{MAX_EVENTS, MAX_FILE_BYTES, MAX_HELD_BYTES, MAX_LINE_BYTES, MAX_PULL_BYTES};
pub use lines::Lines;
pub use step::{Step, StepRef};
pub use writing::write_event;
