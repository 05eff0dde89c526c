//! How a store that threads share is made.
#![tactic(auto)]

mod book;
mod cells;
mod dealing;
mod making;
mod opening;
mod words;

pub use opening::{Opened, open_store};
