//! A worker's seat of a book, with what it holds.
//!
//! Each event is decided by what the seat holds, which takes one look-up, no memory and no call, or else by one call of
//! the book. The code is the same for a book of the seat's own and for one that other seats call between its calls.
#![tactic(auto)]

mod laws;
mod owned;
mod polls;
mod seat;
mod steps;

pub use laws::a_seat_follows_its_events;
pub use seat::BookSeat;
