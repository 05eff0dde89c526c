//! The store's book of scopes and names behind its lock: every call of it that a seat makes.
//!
//! A call enters the lock, calls the book once under the seat's number, and leaves, so that no entry of another seat
//! stands between what it found and what it left. All but `releases` may wait for the lock.
#![tactic(auto)]

mod access;
mod calls;
mod closing;
mod ending;
mod holding;
mod listing;
mod making;
mod reading;
mod shared;
mod sweeping;

pub use ending::{BookEnd, close_book};
pub use holding::HoldingSeat;
pub use listing::{Listing, listing_of};
pub use shared::{LockedBook, SharedBook, Way};
pub use sweeping::sweep_in;
