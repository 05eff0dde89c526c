//! Calls of a store's parties, each made once more where there was no memory, if the desk says so.
ghost use Rattle.std.specs.Prelude.{◌≡◌, ◌+◌, IsSome, All, IfOk, OnOk};
ghost use Rattle.stat_defs.specs.Borrowed.{event_of};
ghost use Rattle.stat_defs.specs.Events.{IsLawfulEvent};
ghost use Rattle.flush_cells.specs.declared.passing.Pass.TheVariants.{Done};
ghost use Rattle.flush_cells.specs.Cells.{IsNotHolding};
ghost use Rattle.flush_cells.specs.Late.{pass_from};
ghost use Rattle.admin_side.specs.Reader.{IsReaderOf};
ghost use Rattle.flusher.specs.Flusher.{IsFlusherOf};
ghost use Rattle.refusal_tests.specs.Standing.{MayBeGiven, IsIdle};

use admin_side::Admin;
use event_script::{Lines, Step, line_says_lawful_events};
use flush_cells::Pass;
use flusher::Flusher;
use recorder::{Polled, Recorder};
use stat_defs::{Event, EventRef, FlushRecord, NoMemory, ReadRecord, Verdict};
use stats_io::SureSource;
use std::alloc::Global;
use std::sync::Wait;
use std::test::Fail;
use store_parts::Store;

/// Where a party works: the runtime that may wait, and the store; and whether a refused call is made once more.
#[derive(Drop)]
pub(crate) struct Desk<'a, R: Wait> {
    pub(crate) rt: &'a R,
    pub(crate) alloc: Global,
    pub(crate) store: &'a Store,
    pub(crate) again: bool,
}

// Only one request for memory is refused in a run, so a call that is made once more has memory.
const REFUSED_TWICE: &str = "refused twice";

/// What a poll told, and whether it was made once more. A poll that is refused may have turned the half, which it does
/// not tell then.
#[derive(Clone, Copy, Drop, Debug, PartialEq, Eq)]
pub(crate) struct Looked {
    pub(crate) polled: Polled,
    pub(crate) refused: bool,
}

/// Looks whether the flusher asks for the half, and whether scopes were released.
pub(crate) fn poll<R: Wait>(
    desk: &Desk<'_, R>,
    recorder: &mut Recorder,
    _more: u32,
) -> Result<Looked, Fail>
    requires { MayBeGiven desk.now.store.now _more recorder.old }
    ensures { MayBeGiven desk.now.store.now _more recorder.new }
{
    match recorder.poll(desk.rt, desk.alloc, desk.store) {
        Ok(polled) => Ok(Looked {
            polled,
            refused: false,
        }),
        Err(NoMemory) if desk.again => match recorder.poll(desk.rt, desk.alloc, desk.store) {
            Ok(polled) => Ok(Looked {
                polled,
                refused: true,
            }),
            Err(NoMemory) => Err(REFUSED_TWICE)?,
        },
        Err(NoMemory) => Err(NoMemory)?,
    }
}

fn apply<R: Wait>(
    desk: &Desk<'_, R>,
    recorder: &mut Recorder,
    event: &EventRef<'_>,
    _more: u32,
) -> Result<Verdict, Fail>
    requires given { MayBeGiven desk.now.store.now (_more + 2) recorder.old }
    requires lawful { IsLawfulEvent (event_of event.now) }
    ensures { IfOk result (λ _. MayBeGiven desk.now.store.now _more recorder.new) }
{
    match recorder.apply(desk.rt, desk.alloc, desk.store, event) {
        Ok(verdict) => Ok(verdict),
        Err(NoMemory) if desk.again => match recorder.apply(
            desk.rt, desk.alloc, desk.store, event,
        ) {
            Ok(verdict) => Ok(verdict),
            Err(NoMemory) => Err(REFUSED_TWICE)?,
        },
        Err(NoMemory) => Err(NoMemory)?,
    }
}

// Applies an event by what is held, and by the book where its key is not held.
fn apply_hit<R: Wait>(
    desk: &Desk<'_, R>,
    recorder: &mut Recorder,
    event: &EventRef<'_>,
    more: u32,
) -> Result<Verdict, Fail>
    requires given { MayBeGiven desk.now.store.now (more + 2) recorder.old }
    requires lawful { IsLawfulEvent (event_of event.now) }
    ensures { IfOk result (λ _. MayBeGiven desk.now.store.now more recorder.new) }
{
    match recorder.apply_hit(desk.alloc, desk.store, event) {
        Ok(Some(verdict)) => Ok(verdict),
        Ok(None) => apply(desk, recorder, event, more),
        Err(NoMemory) if desk.again => match recorder.apply_hit(desk.alloc, desk.store, event) {
            Ok(Some(verdict)) => Ok(verdict),
            Ok(None) => Err("a refused hit is none")?,
            Err(NoMemory) => Err(REFUSED_TWICE)?,
        },
        Err(NoMemory) => Err(NoMemory)?,
    }
}

// The event that a line says.
fn event_in(alloc: Global, line: &str) -> Result<Event, Fail>
    ensures { IfOk result IsLawfulEvent }
{
    line_says_lawful_events();
    let source = SureSource::new(String::new(alloc), line.as_bytes().to_vec(alloc)?, 4096);
    let mut lines = Lines::new(alloc, source)?;
    match lines.next(alloc)? {
        Step::Event(event) => Ok(event),
        _ => Err("no event")?,
    }
}

/// Polls, and applies the event that a line says.
pub(crate) fn work<R: Wait>(
    desk: &Desk<'_, R>,
    recorder: &mut Recorder,
    line: &str,
    more: u32,
) -> Result<Verdict, Fail>
    requires { MayBeGiven desk.now.store.now (more + 2) recorder.old }
    ensures { IfOk result (λ _. MayBeGiven desk.now.store.now more recorder.new) }
{
    let event = event_in(desk.alloc, line)?;
    poll(desk, recorder, more + 2)?;
    apply_hit(desk, recorder, &event.borrowed(), more)
}

/// Polls, and applies the event that a line says once. False where there was no memory for it.
pub(crate) fn work_once<R: Wait>(
    desk: &Desk<'_, R>,
    recorder: &mut Recorder,
    line: &str,
    more: u32,
) -> Result<bool, Fail>
    requires { MayBeGiven desk.now.store.now (more + 1) recorder.old }
    ensures { IfOk result (λ _. MayBeGiven desk.now.store.now more recorder.new) }
{
    let event = event_in(desk.alloc, line)?;
    poll(desk, recorder, more + 1)?;
    let applied = recorder.apply(desk.rt, desk.alloc, desk.store, &event.borrowed());
    Ok(applied.is_ok())
}

/// A reading.
pub(crate) fn read<R: Wait>(desk: &Desk<'_, R>, admin: &mut Admin) -> Result<ReadRecord, Fail>
    requires { IsReaderOf desk.now.store.now.book desk.now.store.now.counters desk.now.store.now.gauges admin.old }
    ensures { IsReaderOf desk.now.store.now.book desk.now.store.now.counters desk.now.store.now.gauges admin.new }
{
    let Store {
        book,
        counters,
        gauges,
        cells: _,
    } = desk.store;
    match admin.read(book, desk.alloc, counters, gauges) {
        Ok(shown) => Ok(shown),
        Err(NoMemory) if desk.again => match admin.read(book, desk.alloc, counters, gauges) {
            Ok(shown) => Ok(shown),
            Err(NoMemory) => Err(REFUSED_TWICE)?,
        },
        Err(NoMemory) => Err(NoMemory)?,
    }
}

fn begin<R: Wait>(desk: &Desk<'_, R>, flusher: &mut Flusher) -> Result<(), Fail>
    requires { IsIdle desk.now.store.now flusher.old }
    ensures { OnOk result (IsFlusherOf desk.now.store.now flusher.new × IsSome flusher.new.round) }
{
    match flusher.begin(desk.rt, desk.alloc, desk.store) {
        Ok(()) => Ok(()),
        Err(NoMemory) if desk.again => match flusher.begin(desk.rt, desk.alloc, desk.store) {
            Ok(()) => Ok(()),
            Err(NoMemory) => Err(REFUSED_TWICE)?,
        },
        Err(NoMemory) => Err(NoMemory)?,
    }
}

fn pass<R: Wait>(desk: &Desk<'_, R>, flusher: &mut Flusher) -> Result<Pass, Fail>
    requires { IsFlusherOf desk.now.store.now flusher.old × IsSome flusher.old.round }
    ensures own { IfOk result (λ pass. IsFlusherOf desk.now.store.now flusher.new × IsSome flusher.new.round) }
    ensures told { IfOk result (λ pass. pass ≡ pass_from 1 flusher.new.tokens) }
    ensures none_held { OnOk result (All IsNotHolding flusher.new.tokens) }
{
    match flusher.pass(desk.alloc, desk.store) {
        Ok(pass) => Ok(pass),
        Err(NoMemory) if desk.again => match flusher.pass(desk.alloc, desk.store) {
            Ok(pass) => Ok(pass),
            Err(NoMemory) => Err(REFUSED_TWICE)?,
        },
        Err(NoMemory) => Err(NoMemory)?,
    }
}

fn take<R: Wait>(desk: &Desk<'_, R>, flusher: &mut Flusher) -> Result<FlushRecord, Fail>
    requires own { IsFlusherOf desk.now.store.now flusher.old × IsSome flusher.old.round }
    requires done { (pass_from 1 flusher.old.tokens ≡ Done) × All IsNotHolding flusher.old.tokens }
    ensures { IfOk result (λ _. IsIdle desk.now.store.now flusher.new) }
{
    match flusher.flush(desk.alloc, desk.store) {
        Ok(shown) => Ok(shown),
        Err(NoMemory) if desk.again => match flusher.flush(desk.alloc, desk.store) {
            Ok(shown) => Ok(shown),
            Err(NoMemory) => Err(REFUSED_TWICE)?,
        },
        Err(NoMemory) => Err(NoMemory)?,
    }
}

/// Begins a round whose first pass does not find the worker's half.
pub(crate) fn begin_late<R: Wait>(desk: &Desk<'_, R>, flusher: &mut Flusher) -> Result<(), Fail>
    requires { IsIdle desk.now.store.now flusher.old }
    ensures { OnOk result (IsFlusherOf desk.now.store.now flusher.new × IsSome flusher.new.round) }
{
    begin(desk, flusher)?;
    if pass(desk, flusher)? != Pass::Late(1, 1) {
        return Err("the half was not waited for")?;
    }
    Ok(())
}

/// The flush of a round for which the worker has given its half.
pub(crate) fn end_round<R: Wait>(
    desk: &Desk<'_, R>,
    flusher: &mut Flusher,
) -> Result<FlushRecord, Fail>
    requires { IsFlusherOf desk.now.store.now flusher.old × IsSome flusher.old.round }
    ensures { IfOk result (λ _. IsIdle desk.now.store.now flusher.new) }
{
    match pass(desk, flusher)? {
        Pass::Done => take(desk, flusher),
        Pass::Late(..) => Err("the half was not given")?,
    }
}

/// A flush, for which the worker gives its half.
pub(crate) fn flush<R: Wait>(
    desk: &Desk<'_, R>,
    recorder: &mut Recorder,
    flusher: &mut Flusher,
    more: u32,
) -> Result<FlushRecord, Fail>
    requires worker { MayBeGiven desk.now.store.now more recorder.old }
    requires flusher { IsIdle desk.now.store.now flusher.old }
    ensures worker { IfOk result (λ _. MayBeGiven desk.now.store.now more recorder.new) }
    ensures flusher { IfOk result (λ _. IsIdle desk.now.store.now flusher.new) }
{
    begin(desk, flusher)?;
    poll(desk, recorder, more)?;
    end_round(desk, flusher)
}
