//! A book of the seat's own.

use crate::access::{BookAccess, KnowsLog};
use stat_book::Book;
use stat_defs::{Acked, Booked, FindAnswer, Key, MetricId, NoMemory, Txt, Verdict};
use std::alloc::Global;

/// A book that no other worker calls, and the number of its seat.
#[derive(Drop)]
pub struct OwnedBook {
    pub book: Book,
    pub number: u32,
}

impl KnowsLog for OwnedBook {
    ghost use Rattle.book_access.specs.Owned.{owned_known};

    ghost known = { λ it. owned_known it.number it.book };
}

impl BookAccess<()> for OwnedBook {
    ghost rests = { λ way it. Unit {0} };

    fn find(&mut self, way: &(), alloc: Global, key: &Key) -> Result<FindAnswer, NoMemory> {
        let told = self.book.find(alloc, self.number, key);
        self.book.has_legal_log();
        told
    }

    fn open(
        &mut self,
        way: &(),
        alloc: Global,
        label: &Txt,
        prefix: &Txt,
    ) -> Result<Verdict, NoMemory> {
        let told = self.book.open(alloc, self.number, label, prefix);
        self.book.has_legal_log();
        told
    }

    fn release(&mut self, way: &(), alloc: Global, label: &Txt) -> Result<Verdict, NoMemory> {
        let told = self.book.release(alloc, self.number, label);
        self.book.has_legal_log();
        told
    }

    fn set_text(
        &mut self,
        way: &(),
        alloc: Global,
        id: MetricId,
        text: &Txt,
    ) -> Result<(), NoMemory> {
        let told = self.book.set_text(alloc, self.number, id, text);
        self.book.has_legal_log();
        told
    }

    fn ack(&mut self, way: &(), alloc: Global) -> Result<Acked, NoMemory> {
        self.book.has_legal_log();
        let told = self.book.ack(alloc, self.number);
        self.book.has_legal_log();
        told
    }

    fn end(&mut self, way: &(), alloc: Global) -> Result<(), NoMemory> {
        let told = self.book.end(alloc, self.number);
        self.book.has_legal_log();
        told
    }

    #[inline(always)]
    fn releases(&mut self, way: &()) -> u64 {
        self.book.releases()
    }
}
