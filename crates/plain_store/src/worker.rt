//! The worker of a store on one thread.
ghost use Rattle.std.specs.Prelude.{◌≡◌, ◌<◌, ◌++◌, [], ◌∷◌, true, false, length, IfOk, OnOk, OnErr, slice_get, All};
ghost use Rattle.std.specs.Option.{IsSomeAnd};
ghost use Rattle.stat_defs.specs.Configs.{IsConfig};
ghost use Rattle.stat_defs.specs.Borrowed.{event_of};
ghost use Rattle.stat_defs.specs.Events.{IsLawfulEvent};
ghost use Rattle.stat_defs.specs.declared.events.Event.{Event as TheEvent};
ghost use Rattle.stat_defs.specs.declared.history.Call.TheVariants as call;
ghost use Rattle.stat_defs.specs.declared.history.Reply.TheVariants as reply;
ghost use Rattle.book_state.specs.State.{names_in};
ghost use Rattle.book_state.specs.Step.{overdue_in};
ghost use Rattle.book_state.specs.Safe.{SymbolsSafe};
ghost use Rattle.book_state.specs.Stored.{IsLawfulCall};
ghost use Rattle.stat_book.specs.Calls.{rules_of, state_of, IsLegal, Logged};
ghost use Rattle.stat_book.specs.NameChanges.{names_of};
ghost use Rattle.book_seat.specs.Naming.{NamesOwn};
ghost use Rattle.plain_store.specs.Worker.{new_worker, IsFollowed, Decides, IsCutShort};

use crate::seat::{SEAT, apply};
use book_access::OwnedBook;
use book_seat::BookSeat;
use ghost_list::GhostList;
use name_map::HashKey;
use stat_book::{Book, BookParts};
use stat_defs::{Config, Entry, Event, EventRef, Kind, MetricId, NoMemory, Swept, Verdict};
use std::alloc::Global;
use std::marker::Model;
use tag_rules::{Matcher, TagRules};

/// A worker is given fewer events.
pub const MAX_EVENTS: usize = 4_194_304;

/// The one worker of a book of its own. Contracts see it as its book, the events that it decided with their verdicts,
/// whether its seat has ended, and whether none of its events was cut short by want of memory.
#[derive(Drop)]
pub(crate) struct LoneWorker {
    seat: BookSeat<OwnedBook>,
    ended: bool,
    whole: bool,
    events: GhostList<Event>,
    verdicts: GhostList<Verdict>,
}

impl Model for LoneWorker {
    ghost use Rattle.plain_store.specs.Worker.{WorkerHistory};

    ghost Value = { WorkerHistory };

    ghost use Rattle.plain_store.specs.WorkerKept.{shown, IsKept};

    ghost view = { shown };

    ghost invariant = { IsKept };
}

// The events, and behind them the one that is borrowed.
#[inline(always)]
fn with_event(events: &GhostList<Event>, event: &EventRef<'_>) -> GhostList<Event>
    ghost item: { TheEvent }
    requires { item ≡ event_of event.now }
    ensures { result.items ≡ events.now.items ++ event_of event.now ∷ [] }
{
    events.and_for(&())
}

impl LoneWorker {
    /// A worker of a new book, whose tables are hashed under this key. The rules and the matcher are those that were built
    /// from the configuration.
    pub(crate) fn with_key(
        alloc: Global,
        key: HashKey,
        config: &Config,
        rules: TagRules,
        matcher: Matcher,
    ) -> Result<LoneWorker, NoMemory>
        requires config { IsConfig config.now }
        requires rules { rules ≡ config.now.tags }
        requires matcher { matcher ≡ config.now.matcher }
        ensures { IfOk result (λ worker. worker ≡ new_worker config.now) }
    {
        let book = Book::with_key(alloc, key, config, rules, matcher, 1)?;
        book.has_legal_log();
        Ok(LoneWorker {
            seat: BookSeat::new(alloc, key, OwnedBook { book, number: SEAT }),
            ended: false,
            whole: true,
            events: GhostList::new(),
            verdicts: GhostList::new(),
        })
    }

    /// Decides an event, whose texts are copied only where the book is called. All releases are acknowledged first. A key
    /// that the seat holds is decided by what is held, with one look-up and without memory, and any other by one find; an
    /// accepted text is set then.
    #[inline(always)]
    pub(crate) fn decide_ref(
        &mut self,
        alloc: Global,
        event: &EventRef<'_>,
    ) -> Result<Verdict, NoMemory>
        requires lawful { IsLawfulEvent (event_of event.now) }
        requires few { length self.old.events < MAX_EVENTS }
        requires works { self.old.ended ≡ false }
        ensures ok { IfOk result (λ verdict. Decides self.old (event_of event.now) verdict self.new) }
        ensures named { IfOk result (λ verdict. NamesOwn (state_of self.new.book) (event_of event.now) verdict) }
        ensures err { OnErr result (IsCutShort self.old (event_of event.now) self.new) }
    {
        let whole = self.whole;
        self.whole = false;
        let verdict = apply(&mut self.seat, alloc, event)?;
        self.events = with_event(&self.events, event);
        self.verdicts = self.verdicts.and(&verdict);
        self.whole = whole;
        Ok(verdict)
    }

    /// Makes the retired metrics gone whose releases the seat has acknowledged, or all of them once it has ended.
    pub(crate) fn sweep(&mut self, alloc: Global) -> Result<Swept, NoMemory>
        ensures step { IfOk result (λ swept. Logged self.old.book 0 call.Sweep
            (reply.Swept (length swept.gone)) self.new.book) }
        ensures list { IfOk result (λ swept. swept.list ≡ names_in (state_of self.old.book)) }
        ensures gone { IfOk result (λ swept. swept.gone ≡ overdue_in (state_of self.old.book)) }
        ensures rest { OnOk result (self.new ≡ record self.old { book = self.new.book }) }
        ensures err { OnErr result (self.new ≡ self.old) }
    {
        let swept = self.seat.sweep(alloc)?;
        Ok(swept)
    }

    /// Ends the seat, which then decides no more.
    pub(crate) fn end(&mut self, alloc: Global) -> Result<(), NoMemory>
        requires works { self.old.ended ≡ false }
        ensures step { OnOk result (Logged self.old.book 1 call.End reply.Ended self.new.book) }
        ensures rest { OnOk result (self.new ≡ record self.old { book = self.new.book; ended = true }) }
        ensures err { OnErr result (self.new ≡ self.old) }
    {
        self.seat.end(&(), alloc)?;
        self.ended = true;
        Ok(())
    }

    /// All calls of the book so far, with their replies. Those of the seat are those of its events, where none was cut
    /// short.
    pub(crate) fn log(&self) -> &[Entry]
        ensures log { result.now ≡ self.now.book.log }
        ensures one_worker { self.now.book.workers ≡ 1 }
        ensures legal { IsLegal self.now.book }
        ensures safe { SymbolsSafe (rules_of self.now.book) 1 self.now.book.log }
        ensures lawful { All (λ entry. IsLawfulCall entry.call) self.now.book.log }
        ensures each { length self.now.verdicts ≡ length self.now.events }
        ensures followed { self.now.whole ≡ true → IsFollowed self.now }
    {
        self.seat.book().log()
    }

    /// A law: the log is legal, and the calls of the seat are those of its events, where none was cut short.
    pub(crate) fn log_is_followed(&self)
        ensures legal { IsLegal self.now.book }
        ensures followed { self.now.whole ≡ true → IsFollowed self.now }
    {
        self.seat.book().has_legal_log();
    }

    /// What the book leaves, when its worker is done.
    pub(crate) fn into_parts(self, alloc: Global) -> Result<BookParts, NoMemory>
        ensures log { IfOk result (λ parts. parts.log.items ≡ self.book.log) }
        ensures names { IfOk result (λ parts. parts.names ≡ names_of self.book) }
    {
        let LoneWorker {
            seat,
            ended: _,
            whole: _,
            events: _,
            verdicts: _,
        } = self;
        seat.into_book().into_parts(alloc)
    }

    /// How many metrics were made.
    pub(crate) fn made(&self) -> u32
        ensures { result ≡ length (state_of self.now.book).metrics }
    {
        self.seat.book().made()
    }

    /// The kind of a metric that was made.
    pub(crate) fn kind(&self, id: MetricId) -> Kind
        requires { id.0 < length (state_of self.now.book).metrics }
        ensures { IsSomeAnd (slice_get (state_of self.now.book).metrics id.0) (λ row. row.metric.kind ≡ result) }
    {
        self.seat.book().metric(id).kind
    }
}
