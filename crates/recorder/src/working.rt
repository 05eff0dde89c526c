//! What a worker does for each of its events.
ghost use Rattle.std.specs.Prelude.{◌≡◌, ◌<◌, ◌++◌, [], ◌∷◌, List, IfOk};
ghost use Rattle.stat_defs.specs.Borrowed.{event_of};
ghost use Rattle.stat_defs.specs.Events.{IsLawfulEvent};
ghost use Rattle.ledger.specs.Work.{events_in, verdicts_in};
ghost use Rattle.store_parts.specs.Ids.{ids_of};
ghost use Rattle.recorder.specs.declared.limits.TheConstants.{MAX_GIVEN};
ghost use Rattle.recorder.specs.Knowing.{HasItsCell};
ghost use Rattle.recorder.specs.Following.{HasFollowedAll, Handles, WorksOn};

use crate::polling::Polled;
use crate::recorder::Recorder;
use book_seat::a_seat_follows_its_events;
use stat_defs::{EventRef, NoMemory, Verdict};
use std::alloc::Global;
use std::sync::Wait;
use store_parts::Store;

/// How an event was handled: what the poll before it did, and its verdict.
#[derive(Clone, Copy, Drop, Debug, PartialEq, Eq)]
pub struct Handled {
    pub polled: Polled,
    pub verdict: Verdict,
}

/// Polls, and applies one event. Where the recorder's entries were those of its events, they are so with this one.
#[inline(always)]
pub fn work_one<R: Wait>(
    rt: &R,
    alloc: Global,
    store: &Store,
    recorder: &mut Recorder,
    event: &EventRef<'_>,
) -> Result<Handled, NoMemory>
    requires own { recorder.old.of ≡ ids_of store.now }
    requires cell { HasItsCell store.now recorder.old }
    requires lawful { IsLawfulEvent (event_of event.now) }
    requires few { recorder.old.given < MAX_GIVEN }
    requires so_far { HasFollowedAll recorder.old }
    ensures handles { IfOk result (λ handled. Handles (event_of event.now) handled recorder.old recorder.new) }
    ensures works { IfOk result (λ handled. WorksOn (event_of event.now) handled.verdict recorder.old recorder.new) }
    ensures so_far { IfOk result (λ handled. HasFollowedAll recorder.new) }
{
    a_seat_follows_its_events();
    let polled = recorder.poll(rt, alloc, store)?;
    let verdict = recorder.apply(rt, alloc, store, event)?;
    Ok(Handled { polled, verdict })
}
