//! A book as one of its seats calls it: a book of the seat's own, or one that other seats call between its calls.
#![tactic(auto)]

mod access;
mod owned;

pub use access::{BookAccess, KnowsLog};
pub use owned::OwnedBook;
