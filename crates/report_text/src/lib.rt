//! The text of a report: its flushes in one of three formats, its readings, its symbols, and a line for each file.
#![tactic(auto)]

mod readings;
mod sections;
mod symbols;
mod workers;
mod writing;

pub use writing::write_report;
