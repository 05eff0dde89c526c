//! The course of a row: a store of one worker is opened, its parties make their calls, and it is closed.
ghost use Rattle.std.specs.Prelude.{IfOk};
ghost use Rattle.admin_side.specs.Reader.{IsReaderOf};
ghost use Rattle.recorder.specs.declared.limits.TheConstants.{MAX_GIVEN};
ghost use Rattle.recorder.specs.Tied.{IsWorkerOf};
ghost use Rattle.refusal_tests.specs.Standing.{MayBeGiven, IsIdle};

use crate::again::Desk;
use crate::closing::closed;
use crate::opening::{NO_TAGS, first_of, opened};
use crate::parties::Parties;
use admin_side::Admin;
use boot_file::read as read_boot;
use flusher::Flusher;
use recorder::Recorder;
use stat_defs::LastFlush;
use std::alloc::Global;
use std::sync::Wait;
use std::test::Fail;
use store_opening::Opened;

/// The calls of a row.
pub(crate) trait Row {
    /// What they told.
    type Told: Drop;

    fn calls<R: Wait>(
        desk: &Desk<'_, R>,
        recorder: &mut Recorder,
        flusher: &mut Flusher,
        admin: &mut Admin,
    ) -> Result<Self::Told, Fail>
        requires worker { MayBeGiven desk.now.store.now MAX_GIVEN recorder.old }
        requires flusher { IsIdle desk.now.store.now flusher.old }
        requires reader { IsReaderOf desk.now.store.now.book desk.now.store.now.counters desk.now.store.now.gauges
            admin.old }
        ensures worker { IfOk result (λ _. IsWorkerOf desk.now.store.now 1 recorder.new) }
        ensures flusher { IfOk result (λ _. IsIdle desk.now.store.now flusher.new) }
        ensures reader { IfOk result (λ _.
            IsReaderOf desk.now.store.now.book desk.now.store.now.counters desk.now.store.now.gauges admin.new) };
}

/// What the calls told, and the last flush and the log of the store. A refused call is made once more where `again`
/// says so.
pub(crate) fn course<W: Row, R: Wait>(
    rt: &R,
    alloc: Global,
    again: bool,
) -> Result<(W::Told, LastFlush), Fail> {
    let config = read_boot(alloc, NO_TAGS)?;
    let parties = opened(alloc, &config);
    drop(config);
    let Opened {
        store,
        recorders,
        mut flusher,
        mut admin,
    } = parties?;
    let Some(mut recorder) = first_of(&store, recorders) else {
        return Err("no worker")?;
    };
    let desk = Desk {
        rt,
        alloc,
        store: &store,
        again,
    };
    let told = W::calls(&desk, &mut recorder, &mut flusher, &mut admin);
    let parties = Parties {
        store,
        recorder,
        flusher,
        admin,
    };
    match told {
        Ok(told) => Ok((told, closed(rt, alloc, parties)?)),
        Err(fail) => {
            drop(parties);
            Err(fail)
        }
    }
}
