//! The end of a shared book.
ghost use Rattle.std.specs.Prelude.{◌≡◌, ◌≤◌, [], All, IfOk, length, map, vec_capacity};
ghost use Rattle.book_lock.specs.History.{IsOneHistory};
ghost use Rattle.locked_book.specs.Sharing.{first_of, seat_count, known_by, names_by, bare_seat, AreAllSeats};
ghost use Rattle.locked_book.specs.Ending.{GivesNames, AreFirstOf};

use crate::shared::{LockedBook, SharedBook};
use book_lock::LockSeat;
use stat_book::Book;
use stat_defs::NoMemory;
use std::alloc::Global;

impl SharedBook {
    /// The book, once all its seats are back. Where there is no memory, it is gone.
    pub fn close(self, alloc: Global, seats: Vec<LockedBook>) -> Result<Book, NoMemory>
        requires { AreAllSeats self seats.items }
        ensures history { IfOk result (λ book. IsOneHistory (first_of self) (seat_count self)
            (map known_by seats.items) book) }
        ensures names { IfOk result (λ book. All (GivesNames book) (map names_by seats.items)) }
        ensures changes { IfOk result (λ book. All (AreFirstOf book) (map names_by seats.items)) }
    {
        let Ok(mut bare) = Vec::with_capacity(alloc, seats.len()) else {
            drop(seats);
            drop(self);
            return Err(NoMemory);
        };
        bare_seats(seats, &mut bare);
        let SharedBook { lock } = self;
        let book = lock.close(bare);
        book.has_legal_log();
        Ok(book)
    }
}

// The seats without their numbers.
fn bare_seats(seats: Vec<LockedBook>, bare: &mut Vec<LockSeat<Book>>)
    requires { (bare.old.items ≡ []) × (length seats.items ≤ vec_capacity bare.old) }
    ensures { bare.new.items ≡ map bare_seat seats.items }
{
    for seat in seats {
        let LockedBook {
            seat: lone,
            number: _,
        } = seat;
        bare.push_reserved(lone);
    }
}
