//! The steps of a reader, and the end of its file.
ghost use Rattle.std.specs.Prelude.{◌≡◌, MatchResult};
ghost use Rattle.stat_defs.specs.Borrowed.{event_of};
ghost use Rattle.event_script.specs.Answer.{TellsEnd};
ghost use Rattle.event_script.specs.Told.{told, answer_of};
ghost use Rattle.event_script.specs.declared.step.Step.TheVariants as step_told;
ghost use Rattle.file_reading.specs.SourceRead.{taken_at, end_told};

use event_script::{Lines, StepRef};
use stat_defs::{EventRef, FileEnd, Verdict, WorkerEnd};
use stats_io::Source;

/// What came of a file that was read and applied: its events' verdicts, and its end.
#[derive(Drop)]
pub struct FileRun {
    pub verdicts: Vec<Verdict>,
    pub end: WorkerEnd,
}

/// The event of a step, or the end of the file.
#[inline(always)]
pub fn event_or_end<'a>(step: StepRef<'a>) -> Result<EventRef<'a>, FileEnd>
    ensures { MatchResult result (λ event. told step.entry ≡ step_told.Event (event_of event))
        (λ end. TellsEnd (answer_of step.entry) end) }
{
    match step {
        StepRef::Event(event) => Ok(event),
        StepRef::End => Err(FileEnd::Whole),
        StepRef::BadLine(number) => Err(FileEnd::BadLine(number)),
        StepRef::LineTooLong(number) => Err(FileEnd::LineTooLong(number)),
        StepRef::TooBig => Err(FileEnd::TooBig),
        StepRef::TooMany => Err(FileEnd::TooMany),
        StepRef::ReadFault => Err(FileEnd::ReadFault),
    }
}

// The bytes that were taken, where the source failed.
fn taken_at(end: FileEnd, taken: u64) -> u64
    ensures { result ≡ taken_at end taken }
{
    match end {
        FileEnd::ReadFault => taken,
        _ => 0,
    }
}

/// The end of a file whose lines were read to it, with the count of its source's faults as it was opened, and as it is.
pub fn end_of<S: Source + Drop>(lines: Lines<S>, end: FileEnd, faults_before: u64) -> WorkerEnd
    ensures { result ≡ end_told end lines.taken faults_before (S.state lines.source).faults }
{
    let taken = taken_at(end, lines.taken());
    let source = lines.into_source();
    WorkerEnd {
        end,
        taken,
        faults_before,
        faults_after: source.fault_count(),
    }
}

/// The end of a file that could not be opened, with the shelf's counts of faults before and after.
pub fn not_opened(faults_before: u64, faults_after: u64) -> WorkerEnd
    ensures { result ≡ end_told FileEnd.NotOpened 0 faults_before faults_after }
{
    WorkerEnd {
        end: FileEnd::NotOpened,
        taken: 0,
        faults_before,
        faults_after,
    }
}
