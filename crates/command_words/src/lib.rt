//! The words of the command line: the command that they say, or that they are none.
#![tactic(auto)]

mod command;
mod commands;
mod limits;
mod numbers;
mod operands;
mod options;
mod sorting;

pub use command::{Command, Load, Reporting};
pub use commands::command_of;
pub use limits::MAX_VALUES;

#[cfg(test)]
mod tests;
