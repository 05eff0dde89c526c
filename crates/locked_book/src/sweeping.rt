//! What the store's own seat and the reader's ask of the book.
ghost use Rattle.std.specs.Prelude.{◌≡◌, IfOk, OnErr};
ghost use Rattle.stat_book.specs.Calls.{IsLegal};
ghost use Rattle.book_access.specs.Calling.{Calls};
ghost use Rattle.book_access.specs.Making.{IsAsFound};
ghost use Rattle.locked_book.specs.Sharing.{known_by, IsSeatOf};
ghost use Rattle.locked_book.specs.Lists.{Lists, SweepsListed, ListsNames};

use crate::listing::{Listing, listing_of};
use crate::shared::{LockedBook, Way};
use stat_book::Book;
use stat_defs::NoMemory;
use std::alloc::Global;
use std::sync::Wait;

/// Sweeps a book as the store's seat, and returns what was not gone before the sweep.
pub fn sweep_in(book: &mut Book, alloc: Global) -> Result<Listing, NoMemory>
    ensures step { IfOk result (λ listing. SweepsListed listing 0 book.old book.new) }
    ensures legal { IsLegal book.new }
    ensures err { OnErr result (book.new ≡ book.old) }
{
    // All memory is taken before the sweep is logged.
    let listing = listing_of(alloc, book)?;
    let swept = book.sweep(alloc);
    book.has_legal_log();
    swept?;
    Ok(listing)
}

impl LockedBook {
    /// Sweeps the book, by the seat 0, which is the store's. Returns what was not gone before the sweep; `at` is the
    /// place of the sweep's entry in the log. Where there is no memory, the book is left as it was found. May wait. It
    /// takes time in the metrics that are not gone.
    pub fn sweep<R: Wait>(&mut self, way: &Way<'_, R>, alloc: Global) -> Result<Listing, NoMemory>
        requires seat { IsSeatOf way.now.book.now self.old }
        requires store { (known_by self.old).number ≡ 0 }
        ensures seat { IsSeatOf way.now.book.now self.new }
        ensures step { IfOk result (λ listing. Calls (SweepsListed listing) (known_by self.old) (known_by self.new)) }
        ensures err { OnErr result (Calls IsAsFound (known_by self.old) (known_by self.new)) }
    {
        let lock = &way.book.lock;
        let mut held = lock.enter(way.rt, &mut self.seat);
        let listing = sweep_in(held.book(), alloc);
        lock.leave(&mut self.seat, held);
        listing
    }

    /// The counters and gauges that are not gone, and the length of the log that was found. No entry is made. May wait.
    pub fn names<R: Wait>(&mut self, way: &Way<'_, R>, alloc: Global) -> Result<Listing, NoMemory>
        requires seat { IsSeatOf way.now.book.now self.old }
        ensures seat { IsSeatOf way.now.book.now self.new }
        ensures step { IfOk result (λ listing. Calls (ListsNames listing) (known_by self.old) (known_by self.new)) }
        ensures err { OnErr result (Calls IsAsFound (known_by self.old) (known_by self.new)) }
    {
        let lock = &way.book.lock;
        let mut held = lock.enter(way.rt, &mut self.seat);
        let listing = listing_of(alloc, held.book());
        lock.leave(&mut self.seat, held);
        listing
    }
}
