//! The poll of the releases, and the end.
ghost use Rattle.std.specs.Prelude.{◌<◌, IfOk, OnOk, OnErr};
ghost use Rattle.book_access.specs.Calling.{WorksUnder, Calls};
ghost use Rattle.book_access.specs.Making.{IsAsFound};
ghost use Rattle.book_seat.specs.Growing.{StaysAtWork};
ghost use Rattle.book_seat.specs.Deciding.{CallsInVain};
ghost use Rattle.book_seat.specs.Polling.{tag_in, Acknowledges, Polls, PollsInVain, Ends};

use crate::seat::BookSeat;
use book_access::{BookAccess, KnowsLog};
use stat_defs::NoMemory;
use std::alloc::Global;
use thread_cache::Cache;

impl<A: KnowsLog> BookSeat<A> {
    // Acknowledges all releases. The seat knows of some that it has not acknowledged.
    #[inline(never)]
    fn acknowledge<W>(&mut self, way: &W, alloc: Global) -> Result<(), NoMemory>
    where
        A: BookAccess<W>,
        requires rests { A.rests way.now self.old }
        requires works { WorksUnder (A.known self.old) }
        requires due { tag_in (A.known self.old) < (A.known self.old).seen }
        ensures rests { A.rests way.now self.new }
        ensures step { OnOk result (Acknowledges (A.known self.old) (A.known self.new)
            × StaysAtWork 0 (A.known self.old) (A.known self.new)) }
        ensures err { OnErr result (CallsInVain (A.known self.old) (A.known self.new)) }
    {
        let acked = self.access.ack(way, alloc)?;
        self.cache.drop_released(acked.scopes.items());
        self.tag = acked.tag;
        Ok(())
    }

    /// Loads the number of releases. Where it is above what the seat has acknowledged, all are acknowledged by one call,
    /// and this says so.
    #[inline(always)]
    pub fn poll<W>(&mut self, way: &W, alloc: Global) -> Result<bool, NoMemory>
    where
        A: BookAccess<W>,
        requires rests { A.rests way.now self.old }
        requires works { WorksUnder (A.known self.old) }
        ensures rests { A.rests way.now self.new }
        ensures polls { IfOk result (λ acked. Polls acked (A.known self.old) (A.known self.new)) }
        ensures err { OnErr result (PollsInVain (A.known self.old) (A.known self.new)) }
    {
        let releases = self.access.releases(way);
        if releases <= self.tag {
            return Ok(false);
        }
        self.acknowledge(way, alloc)?;
        Ok(true)
    }

    /// Ends the seat, which then holds nothing and decides no more. Where there is no memory it goes on.
    pub fn end<W>(&mut self, way: &W, alloc: Global) -> Result<(), NoMemory>
    where
        A: BookAccess<W>,
        requires rests { A.rests way.now self.old }
        requires works { WorksUnder (A.known self.old) }
        ensures rests { A.rests way.now self.new }
        ensures ends { OnOk result (Ends (A.known self.old) (A.known self.new)) }
        ensures err { OnErr result (Calls IsAsFound (A.known self.old) (A.known self.new)) }
    {
        self.access.end(way, alloc)?;
        self.cache = Cache::new(alloc);
        Ok(())
    }
}
