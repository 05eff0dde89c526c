//! How a seat comes to the book, leaves it, and asks for the number of releases. None of these calls takes
//! memory.
ghost use Rattle.std.specs.Prelude.{◌≡◌, ◌≤◌};
ghost use Rattle.book_lock.specs.Naming.{FindsNames, MayName};
ghost use Rattle.seat_history.specs.History.{Finds, MayLeave};
ghost use Rattle.book_lock.specs.History.{Entered, took, missed, left, counted};
ghost use Rattle.book_lock.specs.Seats.{lock_id, seat_part, seat_known, AtRest, HasBook, held_book};
ghost use Rattle.book_lock.specs.Seats.{FoundWith, OnHeld, OnHeldWhole, OnBusy};

use crate::held::{Held, Try};
use crate::lock::{BookLock, LockSeat};
use crate::waiting::Waiter;
use crate::{steps, words};
use stat_defs::Booked;
use std::sync::Wait;

impl<B: Booked + Drop> BookLock<B> {
    /// The book, once a try finds the turn free. May wait.
    pub fn enter<R: Wait>(&self, rt: &R, seat: &mut LockSeat<B>) -> Held<B>
        requires { AtRest (lock_id self.now) seat.old }
        ensures seat { HasBook (lock_id self.now) seat.new }
        ensures found { Finds (seat_known seat.old) (B.history (held_book result)) }
        ensures names { FindsNames (seat_part seat.old) (B.history (held_book result)).log
            (B.changed (held_book result)) }
        ensures counts { FoundWith result (B.changed (held_book result)) (B.history (held_book result)).log }
        ensures part { Entered (B.history (held_book result)).log (B.changed (held_book result)) (seat_part seat.old)
            (seat_part seat.new) }
    {
        let mut waiter = Waiter::new(&self.front);
        for _ in rt.forever() {
            match self.try_enter(seat) {
                Try::Held(held) => return held,
                Try::Busy(_) => waiter.pause(rt),
            }
        }
        unreachable!()
    }

    /// The book, where this call's one step on the turn found 0. Else the word that it found, which is 1.
    pub fn try_enter(&self, seat: &mut LockSeat<B>) -> Try<B>
        requires { AtRest (lock_id self.now) seat.old }
        ensures held { OnHeld result (λ book. HasBook (lock_id self.now) seat.new) }
        ensures found { OnHeld result (λ book. Finds (seat_known seat.old) (B.history book)) }
        ensures names { OnHeld result (λ book. FindsNames (seat_part seat.old) (B.history book).log (B.changed book)) }
        ensures counts { OnHeldWhole result (λ held. FoundWith held (B.changed (held_book held))
            (B.history (held_book held)).log) }
        ensures took { OnHeld result (λ b. seat_part seat.new
            ≡ took (B.history b).log (B.changed b) (seat_part seat.old)) }
        ensures busy { OnBusy result (λ word. (word ≡ 1) × AtRest (lock_id self.now) seat.new) }
        ensures missed { OnBusy result (λ word. seat_part seat.new ≡ missed word (seat_part seat.old)) }
    {
        match steps::take(&self.table.shared, &mut seat.place) {
            Ok(book) => {
                let changes = book.changes();
                let releases = book.releases();
                Try::Held(Held {
                    book,
                    changes,
                    releases,
                })
            }
            Err(word) => Try::Busy(word),
        }
    }

    /// Stores the words of the book's new changes of names, publishes the number of its changes and then, where it rose,
    /// that of its releases, and gives the turn back with the book.
    pub fn leave(&self, seat: &mut LockSeat<B>, held: Held<B>)
        requires seat { HasBook (lock_id self.now) seat.old }
        requires book { MayLeave (seat_known seat.old) (B.history (held_book held)) }
        requires found { FoundWith held (seat_part seat.old).names (seat_known seat.old).known }
        requires names { MayName (seat_part seat.old) (B.history (held_book held)).log (B.changed (held_book held)) }
        ensures seat { AtRest (lock_id self.now) seat.new }
        ensures part { seat_part seat.new ≡ left (B.history (held_book held)).log (B.changed (held_book held))
            (seat_part seat.old) }
    {
        let Held {
            book,
            changes,
            releases,
        } = held;
        words::store_names(&self.table.shared, &mut seat.place, &*book, changes);
        steps::give(&self.table.shared, &mut seat.place, book, releases);
    }

    /// The number of releases, by one load.
    pub fn releases(&self, seat: &mut LockSeat<B>) -> u64
        requires { AtRest (lock_id self.now) seat.old }
        ensures seat { AtRest (lock_id self.now) seat.new }
        ensures part { seat_part seat.new ≡ counted result (seat_part seat.old) }
        ensures rises { (seat_known seat.old).seen ≤ result }
    {
        steps::load(&self.table.shared, &mut seat.place)
    }
}
