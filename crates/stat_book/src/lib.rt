//! The book of a store's scopes and metrics, whose calls are logged.
#![tactic(auto)]

mod book;
mod finds;
mod laws;
mod sweeps;

pub use book::{Book, BookParts};
pub use laws::thread_law;
