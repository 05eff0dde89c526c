//! How a shared book and its seats are made.
ghost use Rattle.std.specs.Prelude.{◌≡◌, ◌*◌, ◌<◌, ◌≤◌, [], IfOk, length, map, vec_capacity};
ghost use Rattle.book_state.specs.declared.limits.TheConstants.{MAX_METRICS};
ghost use Rattle.stat_book.specs.NameChanges.{changes_of};
ghost use Rattle.book_lock.specs.Seats.{lock_id, first_book, AreNew};
ghost use Rattle.locked_book.specs.Sharing.{first_of, seat_count, bare_seat, AreNewSeats};

use crate::shared::{LockedBook, SharedBook};
use book_lock::{BookLock, LockSeat};
use book_state::MAX_METRICS;
use stat_book::Book;
use stat_defs::NoMemory;
use std::alloc::Global;

// Two changes of names for each metric that may be made: it is made once, and becomes gone at most once.
const ROOM: u32 = 2 * MAX_METRICS as u32;

impl SharedBook {
    /// Puts a book that has made no metric behind a lock with so many seats, which come in the order of their numbers
    /// from 0. Where there is no memory, the book is gone.
    pub fn new(
        alloc: Global,
        book: Book,
        seats: u32,
    ) -> Result<(SharedBook, Vec<LockedBook>), NoMemory>
        requires seats { 0 < seats }
        requires new { changes_of book ≡ [] }
        ensures book { IfOk result (λ r. (first_of r.0 ≡ book) × (seat_count r.0 ≡ seats)) }
        ensures seats { IfOk result (λ r. AreNewSeats r.0 seats r.1.items) }
    {
        let Ok(mut numbered) = Vec::with_capacity(alloc, seats as usize) else {
            drop(book);
            return Err(NoMemory);
        };
        let (lock, bare) = BookLock::new(alloc, book, seats, ROOM)?;
        number_seats(&lock, bare, seats, &mut numbered);
        Ok((SharedBook { lock }, numbered))
    }
}

// The number of a seat is its place.
fn number_seats(
    lock: &BookLock<Book>,
    seats: Vec<LockSeat<Book>>,
    count: u32,
    numbered: &mut Vec<LockedBook>,
)
    requires seats { AreNew (lock_id lock.now) (first_book lock.now) (2 * MAX_METRICS) count seats.items }
    requires room { (numbered.old.items ≡ []) × (count ≤ vec_capacity numbered.old) }
    ensures { map bare_seat numbered.new.items ≡ seats.items }
{
    for seat in seats {
        let number = numbered.len() as u32;
        numbered.push_reserved(LockedBook { seat, number });
    }
}
