//! A worker's loop.
ghost use Rattle.std.specs.Prelude.{◌≡◌, ◌<◌, ◌++◌, [], ◌∷◌, IfOk, OnOk, length};
ghost use Rattle.stat_defs.specs.Borrowed.{event_of};
ghost use Rattle.stat_defs.specs.Events.{IsLawfulEvent};
ghost use Rattle.ledger.specs.Work.{events_in};
ghost use Rattle.recorder.specs.declared.limits.TheConstants.{MAX_GIVEN};
ghost use Rattle.recorder.specs.Tied.{IsNewWorker, HasEnded, HasFollowedToEnd};
ghost use Rattle.worker_run.specs.declared.given.Given.TheVariants as given_file;
ghost use Rattle.worker_run.specs.Working.{IsFileRead, IsAtWork, IsWorked};

use crate::given::{Given, Job, Worked};
use crate::worker_gate::WorkerGate;
use event_script::Lines;
use file_reading::{FileRun, end_of, event_or_end, not_opened};
use recorder::{MAX_GIVEN, Recorder, work_one};
use stat_defs::{EventRef, NoMemory, Verdict};
use stats_io::Source;
use std::alloc::Global;
use std::sync::Wait;
use store_parts::Store;

// Where a worker works: the runtime that may wait, the gate before each event, the store, and the worker's number.
#[derive(Drop)]
struct Desk<'a, R: Wait, G: WorkerGate> {
    rt: &'a R,
    alloc: Global,
    gate: &'a G,
    store: &'a Store,
    number: u32,
}

// Goes through the gate and applies an event, whose verdict comes behind the earlier ones. The gate is told where the
// poll turned the half.
#[inline(always)]
fn tell_verdict<R: Wait, G: WorkerGate>(
    desk: &Desk<'_, R, G>,
    recorder: &mut Recorder,
    event: &EventRef<'_>,
    verdicts: &mut Vec<Verdict>,
) -> Result<(), NoMemory>
    requires at_work { IsAtWork desk.now.store.now desk.now.number verdicts.old.items recorder.old }
    requires lawful { IsLawfulEvent (event_of event.now) }
    requires few { length verdicts.old.items < MAX_GIVEN }
    ensures at_work { OnOk result (IsAtWork desk.now.store.now desk.now.number verdicts.new.items recorder.new) }
    ensures event { OnOk result (events_in recorder.new.work ≡ events_in recorder.old.work ++ event_of event.now ∷ []) }
{
    let event_number = verdicts.len() as u64 + 1;
    desk.gate.worker_at(desk.rt, desk.number, event_number);
    let handled = work_one(desk.rt, desk.alloc, desk.store, recorder, event)?;
    if handled.polled.turned {
        desk.gate.worker_turned(desk.rt, desk.number);
    }
    verdicts.push(handled.verdict)?;
    Ok(())
}

// Reads a source to its end and applies its events.
fn read_source<R: Wait, G: WorkerGate, S: Source + Drop>(
    desk: &Desk<'_, R, G>,
    source: S,
    recorder: &mut Recorder,
) -> Result<FileRun, NoMemory>
    requires { IsNewWorker desk.now.store.now desk.now.number recorder.old }
    ensures read { IfOk result (λ read.
        IsFileRead S.state (given_file.Opened source) (events_in recorder.new.work) read.end) }
    ensures at_work { IfOk result (λ read.
        IsAtWork desk.now.store.now desk.now.number read.verdicts.items recorder.new) }
{
    let faults_before = source.fault_count();
    // Room for as many as a file may have events: a list that grew would leave outgrown ones in the worker's heap. Pages that are
    // not written take no memory.
    let mut verdicts = Vec::with_capacity(desk.alloc, MAX_GIVEN as usize)?;
    let mut lines = Lines::new(desk.alloc, source)?;
    loop {
        let step = lines.next_ref(desk.alloc)?;
        match event_or_end(step) {
            Ok(event) => tell_verdict(desk, recorder, &event, &mut verdicts)?,
            Err(end) => {
                let end = end_of(lines, end, faults_before);
                return Ok(FileRun { verdicts, end });
            }
        }
    }
}

// Reads a file, which may be missing, and applies its events.
fn read_file<R: Wait, G: WorkerGate, S: Source + Drop>(
    desk: &Desk<'_, R, G>,
    given: Given<S>,
    recorder: &mut Recorder,
) -> Result<FileRun, NoMemory>
    requires { IsNewWorker desk.now.store.now desk.now.number recorder.old }
    ensures read { IfOk result (λ read. IsFileRead S.state given (events_in recorder.new.work) read.end) }
    ensures at_work { IfOk result (λ read.
        IsAtWork desk.now.store.now desk.now.number read.verdicts.items recorder.new) }
{
    match given {
        Given::Opened(source) => read_source(desk, source, recorder),
        Given::Missing => Ok(FileRun {
            verdicts: Vec::new(desk.alloc),
            end: not_opened(0, 0),
        }),
    }
}

/// Reads the worker's file to its end, and applies its events to the store, each behind a call of the gate and a poll.
/// Then the worker's recorder ends. May wait. The gate is not told that the worker is done.
pub fn work<R: Wait, G: WorkerGate, S: Source + Drop>(
    rt: &R,
    alloc: Global,
    gate: &G,
    store: &Store,
    job: Job<S>,
) -> Result<Worked, NoMemory>
    requires { IsNewWorker store.now job.number job.recorder }
    ensures { IfOk result (IsWorked S.state store.now job.number job.given) }
{
    let Job {
        mut recorder,
        number,
        given,
    } = job;
    let desk = Desk {
        rt,
        alloc,
        gate,
        store,
        number,
    };
    match read_file(&desk, given, &mut recorder) {
        Ok(read) => end(&desk, recorder, read),
        Err(refused) => {
            drop(recorder);
            Err(refused)
        }
    }
}

// Ends the recorder of a worker that read its file.
fn end<R: Wait, G: WorkerGate>(
    desk: &Desk<'_, R, G>,
    recorder: Recorder,
    read: FileRun,
) -> Result<Worked, NoMemory>
    requires { IsAtWork desk.now.store.now desk.now.number read.verdicts.items recorder }
    ensures read { IfOk result (λ worked. (worked.verdicts ≡ read.verdicts) × (worked.end ≡ read.end)) }
    ensures work { IfOk result (λ worked. worked.ended.work.items ≡ recorder.work) }
    ensures ended { IfOk result (λ worked. HasEnded desk.now.store.now desk.now.number worked.ended) }
    ensures followed { IfOk result (λ worked. HasFollowedToEnd worked.ended) }
{
    let FileRun { verdicts, end } = read;
    let ended = recorder.end(desk.rt, desk.alloc, desk.store)?;
    Ok(Worked {
        verdicts,
        end,
        ended,
    })
}
