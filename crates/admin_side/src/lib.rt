//! The admin reader of a store whose book and words threads share.
//!
//! A reading brings the names that the reader knows up to the published changes of the book's names, and loads each word
//! of theirs once. It takes no turn of the book's lock.
#![tactic(auto)]

mod admin;
mod known_names;
mod words;

pub use admin::Admin;
pub use known_names::KnownNames;
pub use words::ReadWords;
