//! The flusher and the reader of a store.
ghost use Rattle.std.specs.Prelude.{◌≡◌, All, IsSome, OnOk};
ghost use Rattle.flush_cells.specs.declared.passing.Pass.TheVariants.{Done};
ghost use Rattle.flush_cells.specs.Cells.{IsNotHolding};
ghost use Rattle.flush_cells.specs.Late.{pass_from};
ghost use Rattle.flusher.specs.Flusher.{IsFlusherOf};
ghost use Rattle.store_bench.specs.Held.{IsIdle, IsReader};

use crate::party::Party;
use admin_side::Admin;
use flush_cells::Pass;
use flusher::Flusher;
use stat_defs::{FlushRecord, NoMemory, ReadRecord};
use std::alloc::Global;
use std::sync::Wait;
use std::sync::atomic::{AtomicBool, Ordering};
use std::thread::{sleep, yield_now};
use std::time::{Clock, Duration};
use store_parts::Store;

/// So often a flusher looks at the cells of a round at most.
const LOOKS: u32 = 1_000_000_000;

/// Rounds beside other threads at most.
const ROUNDS: u32 = 1_000_000;

/// A flusher and a reader with their store. A flusher that did not end a round makes no other.
#[derive(Drop)]
pub(crate) struct Sides<'a> {
    pub(crate) store: &'a Store,
    pub(crate) flusher: Flusher,
    pub(crate) admin: Admin,
    pub(crate) idle: bool,
    ghost between: { IsIdle store.now idle flusher },
    ghost reads: { IsReader store.now admin },
}

// Looks at the workers' cells until each worker gave its half, or all is stopped.
fn take_halves(
    alloc: Global,
    store: &Store,
    flusher: &mut Flusher,
    stop: &AtomicBool,
) -> Result<(), NoMemory>
    requires own { IsFlusherOf store.now flusher.old }
    requires begun { IsSome flusher.old.round }
    ensures own { IsFlusherOf store.now flusher.new }
    ensures begun { IsSome flusher.new.round }
    ensures done { OnOk result ((pass_from 1 flusher.new.tokens ≡ Done) × All IsNotHolding flusher.new.tokens) }
{
    for _ in 0..LOOKS {
        if stop.load(Ordering::SeqCst) {
            return Err(NoMemory);
        }
        match flusher.pass(alloc, store)? {
            Pass::Done => return Ok(()),
            Pass::Late(..) => yield_now(),
        }
    }
    Err(NoMemory)
}

impl Sides<'_> {
    /// Makes a flush, for which these workers are polled. There is none where all is stopped before its end.
    pub(crate) fn flush<R: Wait + AllocGlobal>(
        &mut self,
        rt: &R,
        parties: &mut [Party<'_>],
        stop: &AtomicBool,
    ) -> Result<FlushRecord, NoMemory> {
        if !self.idle {
            return Err(NoMemory);
        }
        self.idle = false;
        self.flusher.begin(rt, rt.alloc(), self.store)?;
        for party in parties.iter_mut() {
            party.poll(rt);
        }
        take_halves(rt.alloc(), self.store, &mut self.flusher, stop)?;
        let shown = self.flusher.flush(rt.alloc(), self.store)?;
        self.idle = true;
        Ok(shown)
    }

    /// Makes a reading.
    pub(crate) fn read<R: Wait + AllocGlobal>(&mut self, rt: &R) -> Result<ReadRecord, NoMemory> {
        let store = self.store;
        self.admin
            .read(&store.book, rt.alloc(), &store.counters, &store.gauges)
    }
}

/// Flushes and reads until all is stopped, and says how often.
pub(crate) fn go_round<R: Wait + Clock + AllocGlobal>(
    rt: &R,
    mut sides: Sides<'_>,
    stop: &AtomicBool,
) -> u32 {
    for round in 0..ROUNDS {
        if sides.flush(rt, &mut [], stop).is_err() {
            return round;
        }
        let _shown = sides.read(rt);
        sleep(rt, Duration::from_millis(2));
    }
    ROUNDS
}
