//! The flusher of a store whose book, words and cells threads share.
//!
//! A round begins with a sweep under the lock of the book, and asks each worker for its half. Passes take the halves as
//! they come, without waiting. The flush latches each counter of the round's listing, loads each gauge, and gives the
//! parts of the halves.
#![tactic(auto)]

mod flusher;
mod parts;
mod rounds;

pub use flusher::Flusher;
pub use parts::FlusherParts;
