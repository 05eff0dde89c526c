//! A seat that keeps the book for a while.
ghost use Rattle.std.specs.Prelude.{◌≡◌, ◌*◌, ◌≤◌, length};
ghost use Rattle.book_state.specs.declared.limits.TheConstants.{MAX_METRICS};
ghost use Rattle.stat_book.specs.NameChanges.{changes_of};
ghost use Rattle.seat_history.specs.History.{known_history};
ghost use Rattle.book_lock.specs.History.{Entered, left};
ghost use Rattle.book_lock.specs.Seats.{lock_id, seat_lock, seat_part, seat_known, seat_number};
ghost use Rattle.book_lock.specs.Seats.{HasBook, FoundWith, held_book};
ghost use Rattle.locked_book.specs.Sharing.{IsSeatOf, part_of};

use crate::shared::{LockedBook, SharedBook, Way};
use book_lock::{Held, LockSeat};
use stat_book::Book;
use std::sync::Wait;

/// A seat that has the book, as it found it, and its number. Until it lets go, each call of another seat that needs the
/// book waits. It cannot be dropped.
pub struct HoldingSeat {
    pub(crate) seat: LockSeat<Book>,
    pub(crate) held: Held<Book>,
    pub(crate) number: u32,
    ghost numbered: { seat_number seat ≡ number },
    ghost has: { HasBook (seat_lock seat) seat },
    ghost roomy: { (seat_part seat).room ≡ 2 * MAX_METRICS },
    ghost found: { FoundWith held (seat_part seat).names (seat_known seat).known },
    ghost same: { known_history (seat_known seat) ≡ held_book held },
    ghost names: { (seat_part seat).names ≡ changes_of (held_book held) },
    ghost few: { length (seat_part seat).names ≤ (seat_part seat).room },
}

impl LockedBook {
    /// Takes the book and keeps it. May wait.
    pub fn hold<R: Wait>(mut self, way: &Way<'_, R>) -> HoldingSeat
        requires { IsSeatOf way.now.book.now self }
        ensures lock { seat_lock result.seat ≡ lock_id way.now.book.now.lock }
        ensures number { result.number ≡ self.number }
        ensures part { Entered (held_book result.held).log (changes_of (held_book result.held)) (part_of self)
            (seat_part result.seat) }
    {
        let held = way.book.lock.enter(way.rt, &mut self.seat);
        let LockedBook { seat, number } = self;
        HoldingSeat { seat, held, number }
    }
}

impl HoldingSeat {
    /// Leaves the book as it was found.
    pub fn let_go(mut self, book: &SharedBook) -> LockedBook
        requires { seat_lock self.seat ≡ lock_id book.now.lock }
        ensures seat { IsSeatOf book.now result }
        ensures number { result.number ≡ self.number }
        ensures part { part_of result ≡ left (held_book self.held).log (changes_of (held_book self.held))
            (seat_part self.seat) }
    {
        let HoldingSeat {
            mut seat,
            held,
            number,
        } = self;
        book.lock.leave(&mut seat, held);
        LockedBook { seat, number }
    }
}
