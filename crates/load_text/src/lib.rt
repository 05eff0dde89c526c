//! The text that a load writes of its report.
#![tactic(auto)]

mod bins;
mod counts;
mod writing;

pub use writing::summary;
