//! The book, and its seats.
ghost use Rattle.std.specs.Prelude.{◌≡◌, ◌*◌};
ghost use Rattle.book_state.specs.declared.limits.TheConstants.{MAX_METRICS};
ghost use Rattle.book_lock.specs.Seats.{AtRest, seat_lock, seat_part, seat_number};

use book_lock::{BookLock, LockSeat};
use stat_book::Book;
use std::sync::Wait;

/// A book that several threads call.
#[derive(Drop)]
pub struct SharedBook {
    pub(crate) lock: BookLock<Book>,
}

/// How a seat reaches the book: the runtime that may wait, and the book's lock.
#[derive(Drop)]
pub struct Way<'a, R: Wait> {
    pub rt: &'a R,
    pub book: &'a SharedBook,
}

/// A seat of a shared book, and its number. Between two calls it does not have the book.
#[derive(Drop)]
pub struct LockedBook {
    pub(crate) seat: LockSeat<Book>,
    pub(crate) number: u32,
    ghost numbered: { seat_number seat ≡ number },
    ghost rests: { AtRest (seat_lock seat) seat },
    ghost roomy: { (seat_part seat).room ≡ 2 * MAX_METRICS },
}
