//! The source of a script: its lines are made as they are pulled, and at most one is held.
#![tactic(auto)]

mod drawing;
mod lines;
mod making;
mod source;
mod taking;

pub use source::ScriptSource;

#[cfg(test)]
mod tests;
