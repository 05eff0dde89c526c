//! A seat of a book of its own.
ghost use Rattle.std.specs.Prelude.{◌≡◌, IfOk, OnOk, OnErr};
ghost use Rattle.stat_book.specs.Calls.{IsLegal};
ghost use Rattle.book_access.specs.Calling.{WorksUnder};
ghost use Rattle.book_access.specs.Making.{SweepsBook};
ghost use Rattle.book_access.specs.Owned.{owned_known};

use crate::seat::BookSeat;
use book_access::OwnedBook;
use stat_book::Book;
use stat_defs::{NoMemory, Swept};
use std::alloc::Global;

impl BookSeat<OwnedBook> {
    /// The book.
    #[inline(always)]
    pub fn book(&self) -> &Book
        ensures { result.now ≡ self.now.book }
    {
        &self.access.book
    }

    /// Makes the retired metrics gone whose releases all workers have acknowledged, as seat 0.
    pub fn sweep(&mut self, alloc: Global) -> Result<Swept, NoMemory>
        ensures swept { IfOk result (λ swept. SweepsBook swept 0 self.old.book self.new.book) }
        ensures seat { OnOk result (self.new ≡ record self.old { book = self.new.book }) }
        ensures err { OnErr result (self.new ≡ self.old) }
    {
        let swept = self.access.book.sweep(alloc);
        self.access.book.has_legal_log();
        swept
    }

    /// The book, when its seat is done.
    pub fn into_book(self) -> Book
        ensures { result ≡ self.book }
    {
        let BookSeat {
            access: OwnedBook { book, number: _ },
            cache: _,
            tag: _,
        } = self;
        book
    }
}
