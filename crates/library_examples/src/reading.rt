//! Events that are read line by line.
ghost use Rattle.std.specs.Prelude.{◌≡◌, ◌≤◌, ◌<◌, ◌+◌, ◌*◌, Ok, IfOk, OnOk, MatchResult, length};
ghost use Rattle.stat_defs.specs.Events.{IsLawfulEvent};
ghost use Rattle.event_script.specs.Answer.{TellsEnd};
ghost use Rattle.event_script.specs.declared.limits.TheConstants as file;
ghost use Rattle.plain_store.specs.declared.worker.TheConstants as worker;
ghost use Rattle.replay_files.specs.Applying.{IsToldBehind};
ghost use Rattle.library_examples.specs.Counting.{AreLinesApplied, AreLinesFlushed, AreFlushedInTurn, Stays};

use event_script::{Lines, Step};
use plain_store::PlainStore;
use stat_defs::{Event, FileEnd, FlushRecord, NoMemory, Verdict};
use stats_io::Source;
use std::alloc::Global;

/// What came of lines: a verdict for each event, and how the lines ended.
#[derive(Drop)]
pub struct LinesApplied {
    pub verdicts: Vec<Verdict>,
    pub end: FileEnd,
}

// The event of a step, or the end of the lines.
fn event_or_end(step: Step) -> Result<Event, FileEnd>
    ensures { MatchResult result (λ event. step ≡ Step.Event event) (λ end. TellsEnd (Ok step) end) }
{
    match step {
        Step::Event(event) => Ok(event),
        Step::End => Err(FileEnd::Whole),
        Step::BadLine(number) => Err(FileEnd::BadLine(number)),
        Step::LineTooLong(number) => Err(FileEnd::LineTooLong(number)),
        Step::TooBig => Err(FileEnd::TooBig),
        Step::TooMany => Err(FileEnd::TooMany),
        Step::ReadFault => Err(FileEnd::ReadFault),
    }
}

// Applies an event, whose verdict comes behind the earlier ones.
fn tell_verdict(
    alloc: Global,
    store: &mut PlainStore,
    event: &Event,
    verdicts: &mut Vec<Verdict>,
) -> Result<(), NoMemory>
    requires lawful { IsLawfulEvent event.now }
    requires few { length store.old.worker.events < worker.MAX_EVENTS }
    ensures { OnOk result (IsToldBehind store.old event.now verdicts.old.items store.new verdicts.new.items) }
{
    let verdict = store.apply(alloc, event)?;
    verdicts.push(verdict)?;
    Ok(())
}

// The same, and gives back the event's memory.
fn apply_event(
    alloc: Global,
    store: &mut PlainStore,
    event: Event,
    verdicts: &mut Vec<Verdict>,
) -> Result<(), NoMemory>
    requires lawful { IsLawfulEvent event }
    requires few { length store.old.worker.events < worker.MAX_EVENTS }
    ensures { OnOk result (IsToldBehind store.old event verdicts.old.items store.new verdicts.new.items) }
{
    tell_verdict(alloc, store, &event, verdicts)
}

/// Reads lines of events to their end, or to the first fault, and applies each event. At most 131,072 events are read.
pub fn apply_lines<S: Source + Drop>(
    alloc: Global,
    source: S,
    store: &mut PlainStore,
) -> Result<LinesApplied, NoMemory>
    requires { length store.old.worker.events + file.MAX_EVENTS ≤ worker.MAX_EVENTS }
    ensures applied { IfOk result (λ lines. AreLinesApplied S.state source store.old store.new
        lines.verdicts.items lines.end) }
    ensures flushes { OnOk result (store.new.flushes ≡ store.old.flushes) }
    ensures kept { OnOk result (Stays store.old store.new) }
    ensures few { OnOk result (length store.new.worker.events
        ≤ length store.old.worker.events + file.MAX_EVENTS) }
{
    let mut verdicts = Vec::new(alloc);
    let mut lines = Lines::new(alloc, source)?;
    loop {
        let step = lines.next(alloc)?;
        match event_or_end(step) {
            Ok(event) => apply_event(alloc, store, event, &mut verdicts)?,
            Err(end) => return Ok(LinesApplied { verdicts, end }),
        }
    }
}

/// Applies the events of a source's lines, and flushes. The record comes behind those of the earlier flushes.
pub fn flush_lines<S: Source + Drop>(
    alloc: Global,
    source: S,
    store: &mut PlainStore,
    flushes: &mut Vec<FlushRecord>,
) -> Result<LinesApplied, NoMemory>
    requires room { length store.old.worker.events + file.MAX_EVENTS ≤ worker.MAX_EVENTS }
    requires flushes { flushes.old.items ≡ store.old.flushes }
    ensures flushes { OnOk result (flushes.new.items ≡ store.new.flushes) }
    ensures counted { IfOk result (λ lines. AreLinesFlushed S.state source store.old store.new
        lines.verdicts.items lines.end) }
    ensures kept { OnOk result (Stays store.old store.new) }
    ensures few { OnOk result (length store.new.worker.events
        ≤ length store.old.worker.events + file.MAX_EVENTS) }
    ensures one_more { OnOk result (length flushes.new.items ≡ length flushes.old.items + 1) }
{
    let lines = apply_lines(alloc, source, store)?;
    let flush = store.flush(alloc)?;
    flushes.push(flush)?;
    Ok(lines)
}

/// Applies the events of each source's lines in turn, and flushes behind each source.
pub fn flush_in_turn<S: Source + Drop>(
    alloc: Global,
    sources: Vec<S>,
    store: &mut PlainStore,
    flushes: &mut Vec<FlushRecord>,
) -> Result<(), NoMemory>
    requires room { length store.old.worker.events + length sources.items * file.MAX_EVENTS ≤ worker.MAX_EVENTS }
    requires flushes { flushes.old.items ≡ store.old.flushes }
    ensures flushes { OnOk result (flushes.new.items ≡ store.new.flushes) }
    ensures counted { OnOk result (AreFlushedInTurn S.state sources.items store.old store.new) }
    ensures kept { OnOk result (Stays store.old store.new) }
    ensures more { OnOk result (length flushes.new.items ≡ length flushes.old.items + length sources.items) }
{
    for source in sources {
        flush_lines(alloc, source, store, flushes)?;
    }
    Ok(())
}
