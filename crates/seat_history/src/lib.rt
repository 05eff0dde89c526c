//! What a seat knows of the log of a book: of a book of its own, or of one whose log others lengthen between its calls.
//!
//! Contracts alone see it. A call of the book by a seat is one step of what the seat knows.
#![tactic(auto)]

mod known;

pub use known::LogKnown;
