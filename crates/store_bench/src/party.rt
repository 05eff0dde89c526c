//! A worker of a store.
ghost use Rattle.std.specs.Prelude.{All};
ghost use Rattle.std.proofs.Props.{props};
ghost use Rattle.stat_defs.specs.Borrowed.{event_of};
ghost use Rattle.stat_defs.specs.Events.{IsLawfulEvent};
ghost use Rattle.store_bench.specs.Held.{IsAtHand};

use crate::events::{Call, event};
use recorder::{MAX_GIVEN, Recorder};
use stat_defs::{EventRef, NoMemory};
use std::alloc::Global;
use std::sync::Wait;
use store_parts::Store;

/// A recorder with its store. It does nothing beyond the events that a recorder may be given.
#[derive(Drop)]
pub(crate) struct Party<'a> {
    store: &'a Store,
    recorder: Recorder,
    // The recorder was given no more events than these.
    given: u32,
    ghost own: { IsAtHand store.now given recorder } by { Prim.hlevel props },
}

impl Party<'_> {
    /// Applies the event of a call on the metric of this name, by what is held or by the book.
    pub(crate) fn tell<R: Wait + AllocGlobal>(&mut self, rt: &R, call: Call, name: &[u8], n: u32) {
        let Some(event) = event(call, name, n) else {
            return;
        };
        if self.given < MAX_GIVEN {
            self.given += 1;
            let _verdict = self.recorder.apply(rt, rt.alloc(), self.store, &event);
        }
    }

    #[inline(always)]
    fn hit<R: Wait + AllocGlobal>(&mut self, rt: &R, event: &EventRef<'_>) -> bool
        requires { IsLawfulEvent (event_of event.now) }
    {
        if self.given >= MAX_GIVEN {
            return false;
        }
        self.given += 1;
        match self.recorder.apply_hit(rt.alloc(), self.store, event) {
            Ok(told) => told.is_some(),
            Err(_) => false,
        }
    }

    /// Whether the poll turned no half.
    #[inline(always)]
    pub(crate) fn poll<R: Wait + AllocGlobal>(&mut self, rt: &R) -> bool {
        match self.recorder.poll(rt, rt.alloc(), self.store) {
            Ok(polled) => !polled.turned,
            Err(_) => false,
        }
    }

    /// Makes a call, and says whether what is held decided the event, or the poll turned no half.
    #[inline(always)]
    pub(crate) fn call<R: Wait + AllocGlobal>(
        &mut self,
        rt: &R,
        call: Call,
        event: &EventRef<'_>,
    ) -> bool
        requires { IsLawfulEvent (event_of event.now) }
    {
        match call {
            Call::Counter | Call::Gauge | Call::Histogram => self.hit(rt, event),
            Call::Poll => self.poll(rt),
            Call::Work => {
                self.poll(rt);
                self.hit(rt, event)
            }
        }
    }
}

/// The name of 24 bytes with this number.
pub(crate) fn name_of(alloc: Global, number: usize) -> Result<String, NoMemory> {
    Ok(format!(in alloc; "listener.downstream_{number:04}")?)
}

/// Applies four events of a call on each of so many metrics.
pub(crate) fn tell_all<R: Wait + AllocGlobal>(
    rt: &R,
    party: &mut Party<'_>,
    call: Call,
    count: usize,
) -> Result<(), NoMemory> {
    for number in 0..count {
        let name = name_of(rt.alloc(), number)?;
        for n in [5, 37, 37, 1_200] {
            party.tell(rt, call, name.as_bytes(), n);
        }
    }
    Ok(())
}

/// The workers of a new store.
pub(crate) fn parties_of(
    alloc: Global,
    store: &Store,
    recorders: Vec<Recorder>,
) -> Result<Vec<Party<'_>>, NoMemory>
    requires { All (IsAtHand store.now 0) recorders.items }
{
    let mut parties = Vec::new(alloc);
    for recorder in recorders {
        parties.push(Party {
            store,
            recorder,
            given: 0,
        })?;
    }
    Ok(parties)
}
