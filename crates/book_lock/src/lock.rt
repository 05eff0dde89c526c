//! A lock, and its seats.
ghost use Rattle.std.specs.Prelude.{◌≡◌, ◌+◌, ◌*◌, ◌<◌, ◌≤◌, length};
ghost use Rattle.book_lock.specs.declared.limits.TheConstants.{MAX_CHANGES};

use crate::plays::Locking;
use crate::steps::Place;
use crate::view::{LockKey, LockView};
use crate::waiting::Front;
use atomic_table::Table;
use stat_defs::Booked;
use std::alloc::Global;

/// A lock round a book. Word 0 of its table is the turn, 1 while a seat has it, word 8 the number of releases, word 16
/// the number of published changes of names, each on a cache line of its own, and behind it stand two words of each
/// change; the slot has the book while no seat does. Beside it is the place for the seat that waits in front.
#[derive(Drop)]
pub struct BookLock<B: Booked> {
    pub(crate) table: Table<Option<Box<B>>, LockView, LockKey<B>, Locking, Global>,
    pub(crate) front: Front,
    ghost sized: { (table.shared.table_id.words ≡ 17 + 2 * table.shared.key.room)
        × (table.shared.table_id.slots ≡ 1) × (0 < table.shared.key.seats)
        × (table.shared.key.room ≤ MAX_CHANGES) },
}

/// A seat of a lock. Contracts alone see its part.
#[derive(Drop)]
pub struct LockSeat<B> {
    pub(crate) place: Place<B>,
    ghost alone: { length place.me.0.parts ≡ 1 },
}
