//! The steps of a lock, on a place with one part.
ghost use Rattle.std.specs.Prelude.{◌≡◌, ◌+◌, ◌*◌, ◌≤◌, [], ◌∷◌, None, MatchResult, length, true};
ghost use Rattle.seat_parts.specs.Parts.{own_changed};
ghost use Rattle.stat_defs.specs.Books.{releases_in};
ghost use Rattle.book_lock.specs.Naming.{FindsNames, MayCount};
ghost use Rattle.seat_history.specs.History.{Finds, MayLeave};
ghost use Rattle.book_lock.specs.History.{took, missed, names_counted, published, gave, counted};
ghost use Rattle.book_lock.specs.Locked.{own_part};

use crate::plays::{Counting, Giving, Loading, Locking, Publishing, Taking};
use crate::view::{LockKey, LockView};
use atomic_table::{Seat, Shared};
use stat_defs::Booked;

// The word of the number of releases: a cache line behind the turn, which is word 0.
pub(crate) const RELEASES: usize = 8;

// The word of the number of changes, a further line behind; the words of the changes follow it.
pub(crate) const CHANGES: usize = 16;

pub(crate) const FIRST_CHANGE: usize = 17;

pub(crate) type Place<B> = Seat<Option<Box<B>>, LockView>;

pub(crate) type Top<B> = Shared<Option<Box<B>>, LockView, LockKey<B>, Locking>;

// The book, where the turn was free, or the word that was found.
pub(crate) fn take<B: Booked>(top: &Top<B>, place: &mut Place<B>) -> Result<Box<B>, u64>
    requires table { (place.old.table_id ≡ top.now.table_id) × (17 ≤ top.now.table_id.words)
        × (top.now.table_id.slots ≡ 1) }
    requires rests { (length place.old.me.0.parts ≡ 1) × (place.old.me.1 ≡ []) }
    ensures table { (place.new.table_id ≡ place.old.table_id) × (place.new.id ≡ place.old.id) }
    ensures told { MatchResult result
        (λ book. (place.new.me
        ≡ (own_changed (took (B.history book.value).log (B.changed book.value)) place.old.me.0, (0, None) ∷ []))
        × Finds (own_part place.old.me.0).seat (B.history book.value)
        × FindsNames (own_part place.old.me.0) (B.history book.value).log (B.changed book.value))
        (λ word. (word ≡ 1) × (place.new.me ≡ (own_changed (missed word) place.old.me.0, []))) }
{
    let found = top.compare_exchange::<Taking>(place, 0, 0, 1);
    if found == 0 {
        Ok(top.exchange(place, 0, None).unwrap())
    } else {
        Err(found)
    }
}

// The number of the book's changes, whose words are stored, is published before the turn goes back with it, and so is
// that of its releases. Where these are as many as were found, no store takes the word from those that poll it.
pub(crate) fn give<B: Booked + Drop>(top: &Top<B>, place: &mut Place<B>, book: Box<B>, found: u64)
    requires table { (place.old.table_id ≡ top.now.table_id) × (17 ≤ top.now.table_id.words)
        × (top.now.table_id.slots ≡ 1) }
    requires holds { (length place.old.me.0.parts ≡ 1) × (place.old.me.1 ≡ (0, None) ∷ [])
        × ((own_part place.old.me.0).holds ≡ true) }
    requires book { MayLeave (own_part place.old.me.0).seat (B.history book.value) }
    requires names { MayCount (own_part place.old.me.0) (B.history book.value).log (B.changed book.value) }
    requires found { found ≡ releases_in (own_part place.old.me.0).seat.known }
    ensures table { (place.new.table_id ≡ place.old.table_id) × (place.new.id ≡ place.old.id) }
    ensures told { place.new.me ≡ (
      own_changed (λ p. gave (published (B.history book.value).log
          (names_counted (B.changed book.value) (length (B.history book.value).log) p))) place.old.me.0,
      [],
    ) }
{
    let changes = book.changes();
    let releases = book.releases();
    drop(top.exchange(place, 0, Some(book)));
    top.store::<Counting>(place, CHANGES, changes as u64);
    if releases != found {
        top.store::<Publishing>(place, RELEASES, releases);
    }
    top.store::<Giving>(place, 0, 0);
}

// The number of releases.
pub(crate) fn load<B: Booked>(top: &Top<B>, place: &mut Place<B>) -> u64
    requires table { (place.old.table_id ≡ top.now.table_id) × (17 ≤ top.now.table_id.words) }
    requires rests { (length place.old.me.0.parts ≡ 1) × (place.old.me.1 ≡ []) }
    ensures table { (place.new.table_id ≡ place.old.table_id) × (place.new.id ≡ place.old.id) }
    ensures told { (place.new.me ≡ (own_changed (counted result) place.old.me.0, []))
        × ((own_part place.old.me.0).seat.seen ≤ result) }
{
    top.load::<Loading>(place, RELEASES)
}
