//! The calls of a worker's seat.
use crate::calls::{ack_in, end_in, find_in, open_in, release_in, set_text_in};
use crate::shared::{LockedBook, Way};
use book_access::{BookAccess, KnowsLog};
use stat_defs::{Acked, FindAnswer, Key, MetricId, NoMemory, Txt, Verdict};
use std::alloc::Global;
use std::sync::Wait;

impl KnowsLog for LockedBook {
    ghost use Rattle.locked_book.specs.Sharing.{known_by};

    ghost known = { known_by };
}

impl<'a, R: Wait> BookAccess<Way<'a, R>> for LockedBook {
    ghost use Rattle.locked_book.specs.Sharing.{IsSeatOf};

    ghost rests = { λ way it. IsSeatOf way.book.now it };

    fn find(&mut self, way: &Way<'a, R>, alloc: Global, key: &Key) -> Result<FindAnswer, NoMemory> {
        let lock = &way.book.lock;
        let mut held = lock.enter(way.rt, &mut self.seat);
        let answer = find_in(held.book(), alloc, self.number, key);
        lock.leave(&mut self.seat, held);
        answer
    }

    fn open(
        &mut self,
        way: &Way<'a, R>,
        alloc: Global,
        label: &Txt,
        prefix: &Txt,
    ) -> Result<Verdict, NoMemory> {
        let lock = &way.book.lock;
        let mut held = lock.enter(way.rt, &mut self.seat);
        let verdict = open_in(held.book(), alloc, self.number, label, prefix);
        lock.leave(&mut self.seat, held);
        verdict
    }

    fn release(
        &mut self,
        way: &Way<'a, R>,
        alloc: Global,
        label: &Txt,
    ) -> Result<Verdict, NoMemory> {
        let lock = &way.book.lock;
        let mut held = lock.enter(way.rt, &mut self.seat);
        let verdict = release_in(held.book(), alloc, self.number, label);
        lock.leave(&mut self.seat, held);
        verdict
    }

    fn set_text(
        &mut self,
        way: &Way<'a, R>,
        alloc: Global,
        id: MetricId,
        text: &Txt,
    ) -> Result<(), NoMemory> {
        let lock = &way.book.lock;
        let mut held = lock.enter(way.rt, &mut self.seat);
        let set = set_text_in(held.book(), alloc, self.number, id, text);
        lock.leave(&mut self.seat, held);
        set
    }

    fn ack(&mut self, way: &Way<'a, R>, alloc: Global) -> Result<Acked, NoMemory> {
        let lock = &way.book.lock;
        let mut held = lock.enter(way.rt, &mut self.seat);
        let acked = ack_in(held.book(), alloc, self.number);
        lock.leave(&mut self.seat, held);
        acked
    }

    fn end(&mut self, way: &Way<'a, R>, alloc: Global) -> Result<(), NoMemory> {
        let lock = &way.book.lock;
        let mut held = lock.enter(way.rt, &mut self.seat);
        let ended = end_in(held.book(), alloc, self.number);
        lock.leave(&mut self.seat, held);
        ended
    }

    #[inline(always)]
    fn releases(&mut self, way: &Way<'a, R>) -> u64 {
        way.book.lock.releases(&mut self.seat)
    }
}
