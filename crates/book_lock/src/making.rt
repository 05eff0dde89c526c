//! How a lock is made.
ghost use Rattle.std.specs.Prelude.{◌≡◌, ◌+◌, ◌*◌, ◌<◌, ◌≤◌, [], IfOk};
ghost use Rattle.book_lock.specs.declared.limits.TheConstants.{MAX_CHANGES};
ghost use Rattle.book_lock.specs.Naming.{AreFirst};
ghost use Rattle.book_lock.specs.Locked.{lock_view};
ghost use Rattle.book_lock.specs.Seats.{lock_id, first_book, seats_of, room_of, AreNew};

use crate::lock::{BookLock, LockSeat};
use crate::steps::{FIRST_CHANGE, Place, RELEASES};
use crate::view::LockKey;
use crate::waiting::Front;
use atomic_table::{Refused, Table};
use seat_parts::Deal;
use stat_defs::{Booked, NoMemory};
use std::alloc::Global;
use std::snapshot::Snapshot;

impl<B: Booked + Drop> BookLock<B> {
    /// A lock round a book, with so many seats, and room for so many changes of its list of names, each in two words.
    /// The seat at place `k` of the list has the number `k`, from 0. Where there is no memory, the book is gone.
    pub fn new(
        alloc: Global,
        book: B,
        seats: u32,
        room: u32,
    ) -> Result<(BookLock<B>, Vec<LockSeat<B>>), NoMemory>
        requires seats { 0 < seats }
        requires room { (1 ≤ room) × (room ≤ MAX_CHANGES) }
        requires new { B.changed book ≡ [] }
        ensures lock { IfOk result (λ r. (first_book r.0 ≡ book) × (seats_of r.0 ≡ seats) × (room_of r.0 ≡ room)) }
        ensures seats { IfOk result (λ r. AreNew (lock_id r.0) (B.history book) room seats r.1.items) }
    {
        let key = LockKey {
            first: Snapshot::of(&book),
            seats: seats as u64,
            room: room as u64,
        };
        let words = first_words(alloc, room, book.releases())?;
        let boxed = Box::new(alloc, book)?;
        let front = Front::empty(alloc)?;
        let mut slots = Vec::with_capacity(alloc, 1)?;
        slots.push_reserved(Some(boxed));
        match Table::new(alloc, words.as_slice(), slots, &key) {
            Ok((table, seat)) => {
                let lock = BookLock { table, front };
                let list = lock.deal(alloc, seat, seats)?;
                Ok((lock, list))
            }
            Err(Refused { slots: _ }) => Err(NoMemory),
        }
    }

    // The first seat has all parts, and each seat before the last is cut off it.
    fn deal(
        &self,
        alloc: Global,
        mut seat: Place<B>,
        seats: u32,
    ) -> Result<Vec<LockSeat<B>>, NoMemory>
        requires lock { (seat.table_id ≡ lock_id self.now) × (0 < seats) }
        requires seat { seat.me ≡ (lock_view (B.history (first_book self.now)) seats (room_of self.now), []) }
        ensures { IfOk result (λ r. AreNew (lock_id self.now) (B.history (first_book self.now)) (room_of self.now) seats
            r.items) }
    {
        let mut list = Vec::with_capacity(alloc, seats as usize)?;
        for _ in 0..seats - 1 {
            list.push(LockSeat {
                place: self.table.shared.split_seat::<Deal>(&mut seat),
            })?;
        }
        list.push(LockSeat { place: seat })?;
        Ok(list)
    }
}

// The words of a new lock's table.
fn first_words(alloc: Global, room: u32, releases: u64) -> Result<Vec<u64>, NoMemory>
    requires { room ≤ MAX_CHANGES }
    ensures { IfOk result (λ words. AreFirst room releases words.items) }
{
    let mut words = vec![in alloc; 0u64; FIRST_CHANGE + 2 * room as usize]?;
    words[RELEASES] = releases;
    Ok(words)
}
