//! Laws of the definitions, each the contract of a function that does nothing.
ghost use Rattle.std.specs.Prelude.{◌≡◌, ◌≢◌, ◌≤◌, ◌++◌, ℕ, List, Some, All, length};
ghost use Rattle.std.specs.Io.KnownBytes.{IsAtEnd};
ghost use Rattle.event_script.specs.Reader.{Reading, Moves, unread};
ghost use Rattle.event_script.specs.FileEvents.{AreEventsOf};
ghost use Rattle.event_script.specs.Answer.{HasEnded};
ghost use Rattle.stats_io.specs.declared.pulling.Pulled.{Pulled};
ghost use Rattle.event_script.specs.Grammar.{IsLineOf, IsLawful, line_for, lines_for};
ghost use Rattle.event_script.specs.declared.limits.TheConstants as limits;
ghost use Rattle.event_script.specs.Script.{File, FileFrom};
ghost use Rattle.stat_defs.specs.Events.{IsLawfulEvent};
ghost use Rattle.stat_defs.specs.declared.events.Event.{Event};
ghost use Rattle.stat_defs.specs.declared.reports.FileEnd.{FileEnd};

use stats_io::Source;

/// A line says one event at most.
pub fn line_says_one_event()
    ensures { (line : List ℕ) (event other : Event) → IsLineOf line event → IsLineOf line other → event ≡ other }
{}

/// The line that is written for a lawful event says it, and is no longer than a line may be.
pub fn written_line_says_its_event()
    ensures { (event : Event) → IsLawful event → (length (line_for event) ≤ limits.MAX_LINE_BYTES)
        × IsLineOf (line_for event) event }
{}

/// A file of the lines that are written for lawful events gives these events.
pub fn written_events_are_read()
    ensures { (events : List Event) → All IsLawful events → length events ≤ limits.MAX_EVENTS
        → length (lines_for events) ≤ limits.MAX_FILE_BYTES
        → File (lines_for events) events FileEnd.Whole }
{}

/// An event that a line says is lawful for a store.
pub fn line_says_lawful_events()
    ensures { (event : Event) → IsLawful event → IsLawfulEvent event }
{}

/// A file has one list of events and one end.
pub fn file_is_single_valued()
    ensures { (bytes : List ℕ) (events others : List Event) (end other : FileEnd) → File bytes events end
        → File bytes others other → (events ≡ others) × (end ≡ other) }
{}

/// Every file has a list of events and an end: with the law above, exactly one. The bytes from any place in a file on
/// have them too, however they stop.
pub fn every_file_has_a_reading()
    ensures whole_file { (bytes : List ℕ) → (events : List Event) × (end : FileEnd) × File bytes events end }
    ensures from_any_place { (number given offset : ℕ) (bytes : List ℕ) (stop : Pulled) → (events : List Event)
        × (end : FileEnd)
        × FileFrom number given offset bytes stop events end }
{}

/// The fault at the least byte stands: one that is found before a read fault is that of the whole file, whatever else
/// the file holds.
pub fn first_fault_stands()
    ensures { (bytes more : List ℕ) (events : List Event) (end : FileEnd)
        → FileFrom 1 0 0 bytes Pulled.Failed events end → end ≢ FileEnd.ReadFault
        → File (bytes ++ more) events end }
{}

/// Two calls in a row took and gave what one would have.
pub fn moves_compose<S: Source>()
    ensures { (a b c : Reading S) (got more : List ℕ) (events others : List Event) → Moves S.state a b got events
        → Moves S.state b c more others
        → Moves S.state a c (got ++ more) (events ++ others) }
{}

/// What a reader answered from its start to an end of the file is what there was to read of that file: the contract of
/// [`Lines::next`](crate::Lines::next) gives the premises.
pub fn answers_are_a_run<S: Source>()
    ensures { (source : S) (now : Reading S) (faults : ℕ) (got : List ℕ) (events : List Event) (end : FileEnd)
        → Moves S.state (unread source faults) now got events
        → HasEnded S.state now end → (now.stopped ≡ Some Pulled.End → IsAtEnd (S.state now.source).left)
        → AreEventsOf (S.state source).left end now.taken events }
{}
