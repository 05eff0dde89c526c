//! The events of a file, one after another.
ghost use Rattle.std.specs.Prelude.{◌≡◌, ◌<◌, Some, None, Ok, IfOk, OnOk, MatchOption};
ghost use Rattle.std.specs.Bool.{MatchBool};
ghost use Rattle.event_script.specs.Reader.{unread};
ghost use Rattle.std.specs.Borrow.{sem};
ghost use Rattle.std.specs.Io.BufRead.{Rests};
ghost use Rattle.event_script.specs.Answer.{IsAnswer, TellsEnd, HasFaultCause};
ghost use Rattle.event_script.specs.Told.{answer_of, HasAnswered, HasRead, IsLastEnd};
ghost use Rattle.event_script.specs.Ready.{GoesOn, PassesOn, turns_left};
ghost use Rattle.event_script.specs.Window.{stop_of, IsPiece, HasOwnLine};
ghost use Rattle.stat_defs.specs.declared.reports.FileEnd.{FileEnd};

use crate::buffer::Buffer;
use crate::cutting::{Place, end_by, has_line, pass_over, read_line, stop_of};
use crate::step::{Step, StepRef, end_of, step_of};
use crate::window::{Window, drop_read, next_pull, took};
use stat_defs::{FileEnd, NoMemory};
use stats_io::{Pull, Pulled, Source};
use std::alloc::Global;
use std::marker::Model;

/// The events of a file, read from a source.
///
/// A reader holds at most 5,120 bytes of its file. It pulls only where it holds no whole line, at most
/// [`MAX_PULL_BYTES`](crate::MAX_PULL_BYTES) at once, and at most one byte more than a file may have; events are lent
/// from the bytes that it holds. A contract sees a reader as a `Reading`: its source, where it stands, what it has
/// taken, and the end that it has found.
#[derive(Drop)]
pub struct Lines<S: Source> {
    source: S,
    held: Buffer,
    window: Window,
    place: Place,
    first_faults: u64,
    stopped: Option<Pulled>,
    ended: Option<FileEnd>,
}

impl<S: Source> Model for Lines<S> {
    ghost use Rattle.std.specs.Prelude.{drop, ◌+◌};
    ghost use Rattle.event_script.specs.Reader.{Reading};

    ghost Value = { Reading S };

    ghost view = { λ l. record {
      source = l.source;
      number = l.place.number;
      given = l.place.given;
      offset = l.window.dropped + l.place.at;
      pending = drop l.place.at l.held;
      taken = l.window.taken;
      first_faults = l.first_faults;
      stopped = l.stopped;
      ended = l.ended;
    } };

    ghost use Rattle.event_script.specs.ReaderKept.{IsReaderKept};

    ghost invariant = { λ l. IsReaderKept l.held l.window l.place l.first_faults l.stopped l.ended
        (S.state l.source) };
}

impl<S: Source> Lines<S> {
    ghost use Rattle.event_script.specs.contracts.lines.Lines.{the_row};

    /// A reader that has taken nothing yet.
    pub fn new(alloc: Global, source: S) -> Result<Lines<S>, NoMemory>
        ensures { IfOk result (λ lines. lines ≡ unread source (S.state source).faults) }
    {
        let first_faults = source.fault_count();
        Ok(Lines {
            source,
            held: Buffer::new(alloc),
            window: Window {
                dropped: 0,
                taken: 0,
                whole: 0,
            },
            place: Place {
                at: 0,
                number: 1,
                given: 0,
            },
            first_faults,
            stopped: None,
            ended: None,
        })
    }

    /// The source, as the reader left it.
    pub fn into_source(self) -> S
        ensures { result ≡ self.source }
    {
        let Lines {
            source,
            held: _,
            window: _,
            place: _,
            first_faults: _,
            stopped: _,
            ended: _,
        } = self;
        source
    }

    /// The number of bytes that were taken from the source so far.
    pub fn taken(&self) -> u64
        ensures { result ≡ self.now.taken }
    {
        self.window.taken
    }

    // Pulls once, behind a piece of a line, which moves to the front.
    fn pull(&mut self, alloc: Global) -> Result<(), NoMemory>
        requires open { self.old.stopped ≡ None }
        requires going { self.old.ended ≡ None }
        requires piece { IsPiece Pulled.Failed self.old.pending }
        ensures goes { GoesOn S.state self.old self.new }
        ensures less { OnOk result (turns_left self.new < turns_left self.old) }
    {
        drop_read(&mut self.held, &mut self.window, &mut self.place);
        let most = next_pull(self.window.taken);
        match self.held.pull(alloc, &mut self.source, most)? {
            Pull::Bytes(count) => self.stopped = took(&mut self.held, &mut self.window, count),
            Pull::End => self.stopped = Some(Pulled::End),
            Pull::Failed => {
                self.stopped = Some(Pulled::Failed);
                self.ended = Some(FileEnd::ReadFault);
            }
        }
        Ok(())
    }

    // Pulls once, or ends where the source has stopped.
    fn read_more(&mut self, alloc: Global) -> Result<(), NoMemory>
        requires going { self.old.ended ≡ None }
        requires piece { IsPiece (stop_of self.old.stopped) self.old.pending }
        ensures goes { GoesOn S.state self.old self.new }
        ensures less { OnOk result (turns_left self.new < turns_left self.old) }
    {
        let Some(stop) = self.stopped else {
            return self.pull(alloc);
        };
        self.ended = Some(end_by(stop));
        Ok(())
    }

    // Passes over lines to the next other one, where that is held.
    #[inline(always)]
    fn find_line(&mut self) -> bool
        requires { self.old.ended ≡ None }
        ensures passes { PassesOn S.state self.old self.new }
        ensures line { MatchBool result (HasOwnLine (stop_of self.new.stopped) self.new.pending)
            (IsPiece (stop_of self.new.stopped) self.new.pending) }
    {
        let bytes = self.held.bytes();
        let stop = stop_of(self.stopped);
        pass_over(bytes, stop, &mut self.place);
        has_line(bytes, stop, self.place.at, self.window.whole)
    }

    // Pulls until a line is held that is not passed over, or the file has ended.
    #[inline(always)]
    fn ready(&mut self, alloc: Global) -> Result<(), NoMemory>
        ensures goes { GoesOn S.state self.old self.new }
        ensures line { OnOk result (self.new.ended ≡ None → HasOwnLine (stop_of self.new.stopped) self.new.pending) }
        ensures same { (end : FileEnd) → self.old.ended ≡ Some end → (result ≡ Ok tt) × (self.new ≡ self.old) }
    {
        let _ = &self.ended;
        while self.ended.is_none() {
            if self.find_line() {
                return Ok(());
            }
            self.read_more(alloc)?;
        }
        Ok(())
    }

    // Reads the line that is held.
    #[inline(always)]
    fn step_ref<'a>(&'a mut self) -> StepRef<'a>
        requires going { self.old.ended ≡ None }
        requires line { HasOwnLine (stop_of self.old.stopped) self.old.pending }
        ensures* answer { sem 𝓛 (Rests (the_row S.row S.Source) self.entry
            (λ new. HasRead S.state self.old new (answer_of result))) }
    {
        let step = read_line(self.held.bytes(), stop_of(self.stopped), &mut self.place);
        self.ended = end_of(&step);
        step
    }

    // The same, and the event is made the caller's own, before anything changes.
    #[inline(always)]
    fn step(&mut self, alloc: Global) -> Result<Step, NoMemory>
        requires going { self.old.ended ≡ None }
        requires line { HasOwnLine (stop_of self.old.stopped) self.old.pending }
        ensures { HasRead S.state self.old self.new result }
    {
        let mut place = self.place;
        let found = read_line(self.held.bytes(), stop_of(self.stopped), &mut place);
        let ended = end_of(&found);
        let step = found.to_step(alloc)?;
        self.place = place;
        self.ended = ended;
        Ok(step)
    }

    // The end that was found, as it is answered.
    #[inline(always)]
    fn last_end<'a>(&self) -> Option<StepRef<'a>>
        ensures { MatchOption result (self.now.ended ≡ None) (IsLastEnd S.state self.now) }
    {
        let Some(end) = self.ended else {
            return None;
        };
        step_of(end)
    }

    /// The next event, or how the file ended.
    ///
    /// - The answers are the events and the end of `File` of the file's bytes, however the source cuts them, and before
    ///   a read fault those of `FileToFault` of the bytes that were taken (`answer`, by its `moves`).
    /// - Every event is lawful and has a line of its own, and an end has its cause: `End` comes only where the source
    ///   has nothing left (`answer`, by its other fields), and the first `ReadFault` only where the source's count of
    ///   faults rose during the call (`fault`).
    /// - The bytes that were taken end fewer than [`MAX_PULL_BYTES`](crate::MAX_PULL_BYTES) past the line of an event,
    ///   and are one more than a file may have at most (`answer`, by `near` and `bound`).
    /// - An end is answered again by each later call, which changes nothing (`again`).
    ///
    /// After `NoMemory` the bytes that were taken are kept, so `taken` may have grown, and the later answers are as if
    /// that call had not been made: `answer` holds of it with no event.
    #[inline(always)]
    pub fn next(&mut self, alloc: Global) -> Result<Step, NoMemory>
        ensures answer { IsAnswer S.state self.old self.new result }
        ensures again { (end : FileEnd) → self.old.ended ≡ Some end → TellsEnd result end × (self.new ≡ self.old) }
        ensures fault { HasFaultCause S.state self.old self.new result }
    {
        self.ready(alloc)?;
        if let Some(step) = self.last_end() {
            return step.to_step(alloc);
        }
        self.step(alloc)
    }

    /// The same as [`next`](Lines::next), but the event is borrowed from the reader: nothing is copied, and memory is
    /// wanted for the first pull alone. What `next` says of the reader, `answered` says of it once nothing is borrowed any more.
    #[inline(always)]
    pub fn next_ref<'a>(&'a mut self, alloc: Global) -> Result<StepRef<'a>, NoMemory>
        ensures* answered { sem 𝓛 (Rests (the_row S.row S.Source) self.entry (HasAnswered S.state self.old result)) }
    {
        self.ready(alloc)?;
        if let Some(step) = self.last_end() {
            return Ok(step);
        }
        Ok(self.step_ref())
    }
}
