//! Lines, cut from the bytes of a file.
ghost use Rattle.std.specs.Prelude.{◌≡◌, ◌<◌, ◌≤◌, ◌+◌, ◌++◌, [], Some, ℕ, List, All, MatchOption, None, length, drop};
ghost use Rattle.event_script.specs.declared.limits.TheConstants as limits;
ghost use Rattle.event_script.specs.Script.{lines_until};
ghost use Rattle.event_script.specs.Script as script;
ghost use Rattle.event_script.specs.Grammar.{IsLawful, IsPassedOver};
ghost use Rattle.event_script.specs.EventIn.{event_in, first_line};
ghost use Rattle.event_script.specs.Said.{LineSays, SaysFirst, IsCut};
ghost use Rattle.event_script.specs.Passing.{PassesOver, HasNoPassed, ReadsLine};
ghost use Rattle.event_script.specs.Window.{IsPiece, HasOwnLine, IsWholeEnd};
ghost use Rattle.event_script.specs.Window as window;
ghost use Rattle.event_script.specs.Answer.{events_answered};
ghost use Rattle.std.specs.Bool.{MatchBool};
ghost use Rattle.event_script.specs.Told.{answer_of};
ghost use Rattle.stat_defs.specs.Borrowed.{event_of};
ghost use Rattle.stat_defs.specs.declared.events.Event.{Event};
ghost use Rattle.stat_defs.specs.declared.reports.FileEnd.{FileEnd};

use crate::events::event_first;
use crate::limits::{MAX_EVENTS, MAX_LINE_BYTES};
use crate::step::StepRef;
use memchr::memchr;
use stat_defs::{EventRef, FileEnd};
use stats_io::Pulled;

// What a line says: nothing, an event, or nothing that is a line of an event file; or it is too long to be read.
#[derive(Clone, Copy, Debug)]
pub enum Said<'a> {
    Nothing,
    Event(EventRef<'a>),
    NoLine,
    TooLong,
}

// Where a reader stands: the place of the next line, its number, and how many events were given before it.
#[derive(Clone, Copy, Debug)]
pub struct Place {
    pub at: usize,
    pub number: u64,
    pub given: u64,
}

// Whether so many bytes behind the last newline are a line.
fn is_line(stopped: Pulled, count: usize) -> bool
    ensures { result ≡ script.is_line stopped count }
{
    match stopped {
        Pulled::End => count > 0,
        Pulled::TooMany => count > MAX_LINE_BYTES,
        Pulled::Failed => count > MAX_LINE_BYTES,
    }
}

// The first line, and how many bytes it takes.
fn line_first(bytes: &[u8], stopped: Pulled) -> Option<(&[u8], usize)>
    ensures { MatchOption result (lines_until stopped bytes.now ≡ [])
        (λ cut. IsCut stopped bytes.now cut.0.now cut.1) }
{
    if let Some(at) = memchr(b'\n', bytes) {
        return Some((&bytes[..at], at + 1));
    }
    if !is_line(stopped, bytes.len()) {
        return None;
    }
    Some((bytes, bytes.len()))
}

// What a line says that is no event's.
fn said_without(line: &[u8]) -> Said<'_>
    requires { event_in line.now ≡ None }
    ensures { LineSays line.now result }
{
    if line.len() > MAX_LINE_BYTES {
        return Said::TooLong;
    }
    if line.is_empty() || line[0] == b'#' {
        return Said::Nothing;
    }
    Said::NoLine
}

// What a line of so many bytes says that is this event's.
#[inline(always)]
fn said_with(event: EventRef<'_>, count: usize) -> Said<'_>
    ensures { (line : List ℕ) → event_in line ≡ Some (event_of event.entry) → length line ≡ count
        → LineSays line result }
{
    if count > MAX_LINE_BYTES {
        return Said::TooLong;
    }
    Said::Event(event)
}

// What the first line says, and how many bytes it takes.
#[inline(always)]
fn said_first(bytes: &[u8], stopped: Pulled) -> Option<(Said<'_>, usize)>
    ensures { MatchOption result (lines_until stopped bytes.now ≡ []) (λ p. SaysFirst stopped bytes.now p.0 p.1) }
{
    let Some((event, after)) = event_first(bytes) else {
        let Some((line, count)) = line_first(bytes, stopped) else {
            return None;
        };
        return Some((said_without(line), count));
    };
    let length = bytes.len() - after.len();
    if !after.is_empty() {
        return Some((said_with(event, length), length + 1));
    }
    if !is_line(stopped, length) {
        return None;
    }
    Some((said_with(event, length), length))
}

// The end of a file whose lines were all read.
pub fn end_by(stopped: Pulled) -> FileEnd
    ensures { result ≡ script.end_by stopped }
{
    match stopped {
        Pulled::End => FileEnd::Whole,
        Pulled::TooMany => FileEnd::TooBig,
        Pulled::Failed => FileEnd::ReadFault,
    }
}

// How a piece behind the last newline is read: where more bytes may follow, as where the source failed.
#[inline(always)]
pub fn stop_of(stopped: Option<Pulled>) -> Pulled
    ensures { result ≡ window.stop_of stopped }
{
    match stopped {
        Some(stop) => stop,
        None => Pulled::Failed,
    }
}

// Whether the line that begins so is passed over, where it is no longer than a line may be.
#[inline(always)]
fn is_passed(bytes: &[u8]) -> bool
    ensures { MatchBool result (IsPassedOver (first_line bytes.now) × (0 < length bytes.now))
        (0 < length bytes.now → ¬ IsPassedOver (first_line bytes.now)) }
{
    !bytes.is_empty() && (bytes[0] == b'\n' || bytes[0] == b'#')
}

// Goes on to the first line that is not passed over, or behind the last line.
#[inline(always)]
pub fn pass_over(bytes: &[u8], stop: Pulled, place: &mut Place)
    requires within { place.old.at ≤ length bytes.now }
    requires short { place.old.number + length bytes.now ≤ limits.MAX_FILE_BYTES + place.old.at + 1 }
    ensures within { place.new.at ≤ length bytes.now }
    ensures passes { PassesOver stop bytes.now place.old place.new }
    ensures own { HasNoPassed stop (drop place.new.at bytes.now) }
{
    while is_passed(&bytes[place.at..]) {
        let Some((line, count)) = line_first(&bytes[place.at..], stop) else {
            return;
        };
        if line.len() > MAX_LINE_BYTES {
            return;
        }
        place.at += count;
        place.number += 1;
    }
}

// Whether a line stands at that place, where the last newline ends there.
#[inline(always)]
pub fn has_line(bytes: &[u8], stop: Pulled, at: usize, whole: usize) -> bool
    requires within { at ≤ length bytes.now }
    requires whole { IsWholeEnd bytes.now whole }
    requires own { HasNoPassed stop (drop at bytes.now) }
    ensures { MatchBool result (HasOwnLine stop (drop at bytes.now)) (IsPiece stop (drop at bytes.now)) }
{
    if at < whole {
        return true;
    }
    is_line(stop, bytes.len() - at)
}

// Reads the line at that place, which is not passed over.
#[inline(always)]
pub fn read_line<'a>(bytes: &'a [u8], stop: Pulled, place: &mut Place) -> StepRef<'a>
    requires within { place.old.at ≤ length bytes.now }
    requires short { place.old.number + length bytes.now ≤ limits.MAX_FILE_BYTES + place.old.at + 1 }
    requires few { place.old.given ≤ limits.MAX_EVENTS }
    requires line { HasOwnLine stop (drop place.old.at bytes.now) }
    ensures within { place.new.at ≤ length bytes.now }
    ensures lawful { All IsLawful (events_answered (answer_of result)) }
    ensures reads { ReadsLine stop bytes.now place.old place.new (answer_of result) }
{
    let Some((said, count)) = said_first(&bytes[place.at..], stop) else {
        unreachable!()
    };
    match said {
        Said::Nothing => unreachable!(),
        Said::NoLine => StepRef::BadLine(place.number),
        Said::TooLong => StepRef::LineTooLong(place.number),
        Said::Event(event) => {
            if place.given == MAX_EVENTS {
                return StepRef::TooMany;
            }
            place.at += count;
            place.number += 1;
            place.given += 1;
            StepRef::Event(event)
        }
    }
}
