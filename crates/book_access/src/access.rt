//! What a seat asks of its book.

use stat_defs::{Acked, FindAnswer, Key, MetricId, NoMemory, Txt, Verdict};
use std::alloc::Global;

/// A seat of a book, which has a number and knows the book's log as it found or left it last.
pub trait KnowsLog {
    ghost use Rattle.seat_history.specs.declared.known.LogKnown.{LogKnown};

    /// The number of the seat, and what it knows of the log.
    ghost known: { Self → LogKnown };
}

/// The calls of a seat. Each finds the log that the seat knows with entries of other seats alone behind it, and leaves
/// what the call made of it. Where there is no memory it leaves the book as it found it.
///
/// `W` is what a call needs that the seat does not own, such as the lock of the book. A seat that calls by the way of
/// another book finds none of its own entries there, so that each call asks for the seat's own way.
pub trait BookAccess<W>: KnowsLog {
    ghost use Rattle.std.specs.Prelude.{◌≡◌, ◌<◌, ◌≤◌, true, IfOk, OnOk, OnErr, IsNone};
    ghost use Rattle.stat_defs.specs.Names.{IsLocalName, IsScopePrefix};
    ghost use Rattle.stat_defs.specs.Keys.{held_under};
    ghost use Rattle.stat_defs.specs.declared.history.Call.TheVariants as call;
    ghost use Rattle.stat_defs.specs.declared.history.Reply.TheVariants as reply;
    ghost use Rattle.seat_history.specs.History.{loaded};
    ghost use Rattle.book_state.specs.declared.limits.TheConstants.{MAX_OPENINGS};
    ghost use Rattle.book_state.specs.Step.{holds_text};
    ghost use Rattle.book_access.specs.Calling.{WorkingUnder, WorksUnder, Calls, opened};
    ghost use Rattle.book_access.specs.Making.{IsAsFound, AnswersCall, LogsCall, FindsKey, AcksAll};

    /// The seat may call by this way.
    ghost rests: { W → Self → Type 0 };

    /// Finds a key that the seat does not hold.
    fn find(&mut self, way: &W, alloc: Global, key: &Key) -> Result<FindAnswer, NoMemory>
        requires rests { rests way.now self.old }
        requires works { WorkingUnder (Self.known self.old) (λ row. IsNone (held_under key.now row.held)) }
        requires name { IsLocalName key.now.name }
        ensures rests { rests way.now self.new }
        ensures step { IfOk result (λ answer. Calls (FindsKey key.now answer) (Self.known self.old) (Self.known self.new)) }
        ensures err { OnErr result (Calls IsAsFound (Self.known self.old) (Self.known self.new)) };

    /// Opens a scope.
    fn open(
        &mut self,
        way: &W,
        alloc: Global,
        label: &Txt,
        prefix: &Txt,
    ) -> Result<Verdict, NoMemory>
        requires rests { rests way.now self.old }
        requires works { WorksUnder (Self.known self.old) }
        requires prefix { IsScopePrefix prefix.now }
        requires room { opened (Self.known self.old) < MAX_OPENINGS }
        ensures rests { rests way.now self.new }
        ensures step { IfOk result (λ verdict. Calls (AnswersCall (call.OpenScope label.now prefix.now) verdict)
            (Self.known self.old) (Self.known self.new)) }
        ensures err { OnErr result (Calls IsAsFound (Self.known self.old) (Self.known self.new)) };

    /// Releases a scope.
    fn release(&mut self, way: &W, alloc: Global, label: &Txt) -> Result<Verdict, NoMemory>
        requires rests { rests way.now self.old }
        requires works { WorksUnder (Self.known self.old) }
        ensures rests { rests way.now self.new }
        ensures step { IfOk result (λ verdict. Calls (AnswersCall (call.Release label.now) verdict)
            (Self.known self.old) (Self.known self.new)) }
        ensures err { OnErr result (Calls IsAsFound (Self.known self.old) (Self.known self.new)) };

    /// Sets the text of a readout that the seat holds.
    fn set_text(&mut self, way: &W, alloc: Global, id: MetricId, text: &Txt) -> Result<(), NoMemory>
        requires rests { rests way.now self.old }
        requires works { WorkingUnder (Self.known self.old) (λ row. holds_text id.0 row ≡ true) }
        ensures rests { rests way.now self.new }
        ensures step { OnOk result (Calls (LogsCall (call.SetText id text.now) reply.TextSet)
            (Self.known self.old) (Self.known self.new)) }
        ensures err { OnErr result (Calls IsAsFound (Self.known self.old) (Self.known self.new)) };

    /// Acknowledges all releases. The seat knows of some that it has not acknowledged.
    fn ack(&mut self, way: &W, alloc: Global) -> Result<Acked, NoMemory>
        requires rests { rests way.now self.old }
        requires due { WorkingUnder (Self.known self.old) (λ row. row.tag < (Self.known self.old).seen) }
        ensures rests { rests way.now self.new }
        ensures step { IfOk result (λ acked. Calls (AcksAll acked) (Self.known self.old) (Self.known self.new)) }
        ensures err { OnErr result (Calls IsAsFound (Self.known self.old) (Self.known self.new)) };

    /// Ends the seat, which may then call no more.
    fn end(&mut self, way: &W, alloc: Global) -> Result<(), NoMemory>
        requires rests { rests way.now self.old }
        requires works { WorksUnder (Self.known self.old) }
        ensures rests { rests way.now self.new }
        ensures step { OnOk result (Calls (LogsCall call.End reply.Ended) (Self.known self.old) (Self.known self.new)) }
        ensures err { OnErr result (Calls IsAsFound (Self.known self.old) (Self.known self.new)) };

    /// Loads the number of releases, which may have risen since the last call.
    fn releases(&mut self, way: &W) -> u64
        requires rests { rests way.now self.old }
        ensures rests { rests way.now self.new }
        ensures loads { Self.known self.new ≡ loaded result (Self.known self.old) }
        ensures rises { (Self.known self.old).seen ≤ result };
}
