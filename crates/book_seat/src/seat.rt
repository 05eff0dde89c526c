//! The seat, and the verdict on a key.
ghost use Rattle.std.specs.Prelude.{◌≡◌, ◌↔◌, None, Ok, true, false, IfOk, OnErr, IfSome, option_map, unwrap_or};
ghost use Rattle.std.specs.Option.{IsSomeAnd};
ghost use Rattle.stat_defs.specs.Names.{IsLocalName};
ghost use Rattle.stat_defs.specs.Keys.{held_under};
ghost use Rattle.stat_defs.specs.declared.events.Key.{Key as TheKey};
ghost use Rattle.stat_defs.specs.declared.history.Call.TheVariants as call;
ghost use Rattle.stat_defs.specs.declared.history.Verdict.TheVariants as verdict;
ghost use Rattle.book_state.specs.SeatLaws.{is_held};
ghost use Rattle.stat_book.specs.Finds.{scope_number};
ghost use Rattle.thread_cache.specs.Keys.{asked};
ghost use Rattle.thread_cache.specs.Held.{held_with};
ghost use Rattle.book_access.specs.Calling.{WorksUnder};
ghost use Rattle.book_seat.specs.Deciding.{held_in_log, JudgesKey, CallsInVain};
ghost use Rattle.book_seat.specs.Naming.{IsInRoom};
ghost use Rattle.book_seat.specs.SeatKept.{IsNewSeat};

use book_access::{BookAccess, KnowsLog};
use name_map::HashKey;
use stat_defs::{FindAnswer, Key, NoMemory, Txt, Verdict};
use std::alloc::Global;
use std::marker::Model;
use thread_cache::{Cache, Query};

/// A worker's seat of a book, and what it holds. Contracts see it as its access to the book: what the seat holds, and
/// how many releases it has acknowledged, are given by the log that it knows.
#[derive(Drop)]
pub struct BookSeat<A: KnowsLog> {
    pub(crate) access: A,
    pub(crate) cache: Cache,
    /// The number of releases that the seat has acknowledged.
    pub(crate) tag: u64,
}

impl<A: KnowsLog> Model for BookSeat<A> {
    ghost use Rattle.book_seat.specs.SeatKept.{IsKept};

    ghost Value = { A };

    ghost view = { λ seat. seat.access };

    ghost invariant = { λ seat. IsKept (A.known seat.access) seat.cache.entries seat.tag };
}

// The key that is asked for, with texts of its own, as a find takes it.
fn key_of(alloc: Global, query: &Query<'_>) -> Result<Key, NoMemory>
    ensures { IfOk result (λ key. key ≡ asked query.now) }
{
    Ok(Key {
        label: Txt::of(alloc, query.label)?,
        kind: query.kind,
        mode: query.mode,
        name: Txt::of(alloc, query.name)?,
    })
}

// Holds what was found under the key that has room, if it is a verdict to hold.
fn hold(cache: &mut Cache, answer: FindAnswer)
    requires room { IsSomeAnd cache.old.room (λ key. held_under key cache.old.entries ≡ None) }
    requires scope { (answer.scope ≡ None) ↔ (answer.verdict ≡ verdict.NoScope) }
    ensures held { is_held answer.verdict ≡ true → IfSome cache.old.room (λ room. (key : TheKey) →
        held_under key cache.new.entries ≡ held_with (record {
          key = room;
          scope = unwrap_or (option_map scope_number answer.scope) 0;
          verdict = answer.verdict;
        }) cache.old.entries key) }
    ensures passed { is_held answer.verdict ≡ false → cache.new ≡ cache.old }
{
    let Some(scope) = answer.scope else {
        return;
    };
    match answer.verdict {
        Verdict::Accepted(_) | Verdict::Rejected => cache.fill(scope, answer.verdict),
        _ => {}
    }
}

impl<A: KnowsLog> BookSeat<A> {
    /// A seat that has made no call. Its table is hashed under this key.
    pub fn new(alloc: Global, key: HashKey, access: A) -> BookSeat<A>
        requires { IsNewSeat (A.known access) }
        ensures { result ≡ access }
    {
        BookSeat {
            access,
            cache: Cache::with_key(alloc, key),
            tag: 0,
        }
    }

    /// The access to the book.
    #[inline(always)]
    pub fn access(&self) -> &A
        ensures { result.now ≡ self.now }
    {
        &self.access
    }

    /// The access to the book, of a seat that is done with.
    pub fn into_access(self) -> A
        ensures { result ≡ self }
    {
        let BookSeat {
            access,
            cache: _,
            tag: _,
        } = self;
        access
    }

    // A law: want of memory before the book is called is a call in vain.
    #[inline(always)]
    pub(crate) fn waits_in_vain(&self)
        requires { WorksUnder (A.known self.now) }
        ensures { CallsInVain (A.known self.now) (A.known self.now) }
    {
        // The invariant holds where a field is read.
        let _access = &self.access;
    }

    // Finds the query's key, which is not held. A verdict to hold is held.
    #[inline(never)]
    fn find_anew<W>(
        &mut self,
        way: &W,
        alloc: Global,
        query: &Query<'_>,
    ) -> Result<Verdict, NoMemory>
    where
        A: BookAccess<W>,
        requires rests { A.rests way.now self.old }
        requires works { WorksUnder (A.known self.old) }
        requires name { IsLocalName query.now.name.now }
        requires free { held_in_log (A.known self.old) (asked query.now) ≡ None }
        ensures rests { A.rests way.now self.new }
        ensures judged { IfOk result (λ verdict. JudgesKey (asked query.now) verdict
            (A.known self.old) (A.known self.new)) }
        ensures err { OnErr result (CallsInVain (A.known self.old) (A.known self.new)) }
    {
        self.waits_in_vain();
        let key = key_of(alloc, query)?;
        self.cache.reserve(&key)?;
        let answer = self.access.find(way, alloc, &key)?;
        hold(&mut self.cache, answer);
        Ok(answer.verdict)
    }

    // The verdict on the query's key: by what is held, which takes no memory and leaves the book alone, else by one find.
    #[inline(always)]
    pub(crate) fn judge<W>(
        &mut self,
        way: &W,
        alloc: Global,
        query: &Query<'_>,
    ) -> Result<Verdict, NoMemory>
    where
        A: BookAccess<W>,
        requires rests { A.rests way.now self.old }
        requires works { WorksUnder (A.known self.old) }
        requires name { IsLocalName query.now.name.now }
        ensures rests { A.rests way.now self.new }
        ensures judged { IfOk result (λ verdict. JudgesKey (asked query.now) verdict
            (A.known self.old) (A.known self.new)) }
        ensures alone { IfSome (held_in_log (A.known self.old) (asked query.now))
            (λ held. (result ≡ Ok held) × (self.new ≡ self.old)) }
        ensures err { OnErr result (CallsInVain (A.known self.old) (A.known self.new)) }
    {
        match self.cache.hit(query) {
            Some(verdict) => Ok(verdict),
            None => self.find_anew(way, alloc, query),
        }
    }

    // The verdict that is held under the query's key. It takes no memory, and leaves the book alone.
    #[inline(always)]
    pub(crate) fn hit(&self, query: &Query<'_>) -> Option<Verdict>
        ensures hit { result ≡ held_in_log (A.known self.now) (asked query.now) }
        ensures in_room { IfSome result IsInRoom }
    {
        self.cache.hit(query)
    }
}
