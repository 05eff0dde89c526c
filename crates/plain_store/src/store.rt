//! The store.
ghost use Rattle.std.specs.Prelude.{◌≡◌, ◌≤◌, ◌<◌, ◌++◌, [], ◌∷◌, true, length, All, IfOk, OnErr};
ghost use Rattle.stat_defs.specs.Configs.{IsConfig};
ghost use Rattle.stat_defs.specs.Borrowed.{event_of};
ghost use Rattle.stat_defs.specs.Events.{IsLawfulEvent};
ghost use Rattle.stat_defs.specs.declared.events.Event.{Event as TheEvent};
ghost use Rattle.stat_defs.specs.declared.history.Verdict.{Verdict as TheVerdict};
ghost use Rattle.book_state.specs.Stored.{IsLawfulCall};
ghost use Rattle.stat_book.specs.Calls.{IsLegal};
ghost use Rattle.plain_store.specs.declared.worker.TheConstants.{MAX_EVENTS};
ghost use Rattle.plain_store.specs.Store.{new_store, Applied, IsCutShort, Flushes, FlushIsCutShort, Finishes};
ghost use Rattle.plain_store.specs.Store.{AccountsSoFar};

use crate::account::sum_up;
use crate::last::finish_parts;
use crate::record::take_flush;
use crate::sums::Sums;
use crate::worker::LoneWorker;
use ghost_list::GhostList;
use name_map::HashKey;
use stat_defs::{Config, Entry, Event, EventRef, FlushRecord, LastFlush, List, NoMemory, Verdict};
use std::alloc::Global;
use std::marker::Model;
use tag_rules::{Matcher, TagRules};

/// A store with one worker. Contracts see it as its worker, with its events, their verdicts and the log; the events that
/// were counted, which are those that `apply` gave a verdict of; and the records of its flushes so far.
#[derive(Drop)]
pub struct PlainStore {
    worker: LoneWorker,
    sums: Sums,
    // How many events were decided.
    decided: usize,
    counted: GhostList<(Event, Verdict)>,
    flushes: GhostList<FlushRecord>,
    whole: bool,
}

impl Model for PlainStore {
    ghost use Rattle.plain_store.specs.Store.{StoreHistory};

    ghost Value = { StoreHistory };

    ghost use Rattle.plain_store.specs.StoreKept.{shown, IsKept};

    ghost view = { shown };

    ghost invariant = { IsKept };
}

// The events that were counted, and behind them the one that is borrowed.
#[inline(always)]
fn with_counted(
    counted: &GhostList<(Event, Verdict)>,
    event: &EventRef<'_>,
    verdict: Verdict,
) -> GhostList<(Event, Verdict)>
    ghost item: { TheEvent × TheVerdict }
    requires { item ≡ (event_of event.now, verdict) }
    ensures { result.items ≡ counted.now.items ++ (event_of event.now, verdict) ∷ [] }
{
    counted.and_for(&())
}

impl PlainStore {
    /// A store without events. The rules and the matcher are those that were built from the configuration. Its tables
    /// are hashed under the fixed key.
    pub fn new(
        alloc: Global,
        config: &Config,
        rules: TagRules,
        matcher: Matcher,
    ) -> Result<PlainStore, NoMemory>
        requires config { IsConfig config.now }
        requires rules { rules ≡ config.now.tags }
        requires matcher { matcher ≡ config.now.matcher }
        ensures { IfOk result (λ store. store ≡ new_store config.now) }
    {
        PlainStore::with_key(alloc, HashKey::fixed(), config, rules, matcher)
    }

    /// The same, its tables hashed under this key.
    pub fn with_key(
        alloc: Global,
        key: HashKey,
        config: &Config,
        rules: TagRules,
        matcher: Matcher,
    ) -> Result<PlainStore, NoMemory>
        requires config { IsConfig config.now }
        requires rules { rules ≡ config.now.tags }
        requires matcher { matcher ≡ config.now.matcher }
        ensures { IfOk result (λ store. store ≡ new_store config.now) }
    {
        let worker = LoneWorker::with_key(alloc, key, config, rules, matcher)?;
        let sums = Sums::new(alloc);
        Ok(PlainStore {
            worker,
            sums,
            decided: 0,
            counted: GhostList::new(),
            flushes: GhostList::new(),
            whole: true,
        })
    }

    /// Decides an event, and sums up what it adds where it is accepted. An event on a key that is held, which is no
    /// text, takes one look-up, and no memory where its histogram has a value of this store already. After want of
    /// memory the event is not counted, and each later flush shows what it would have shown.
    pub fn apply(&mut self, alloc: Global, event: &Event) -> Result<Verdict, NoMemory>
        requires lawful { IsLawfulEvent event.now }
        requires few { length self.old.worker.events < MAX_EVENTS }
        ensures ok { IfOk result (λ verdict. Applied self.old event.now verdict self.new) }
        ensures err { OnErr result (IsCutShort self.old event.now self.new) }
    {
        self.apply_ref(alloc, &event.borrowed())
    }

    /// The same of an event whose texts are borrowed. They are copied only where the book is called.
    #[inline(always)]
    pub fn apply_ref(&mut self, alloc: Global, event: &EventRef<'_>) -> Result<Verdict, NoMemory>
        requires lawful { IsLawfulEvent (event_of event.now) }
        requires few { length self.old.worker.events < MAX_EVENTS }
        ensures ok { IfOk result (λ verdict. Applied self.old (event_of event.now) verdict self.new) }
        ensures err { OnErr result (IsCutShort self.old (event_of event.now) self.new) }
    {
        let decided = self.worker.decide_ref(alloc, event);
        self.worker.log_is_followed();
        let verdict = decided?;
        self.decided += 1;
        let made = self.worker.made();
        sum_up(&mut self.sums, alloc, made, event, verdict)?;
        self.counted = with_counted(&self.counted, event, verdict);
        Ok(verdict)
    }

    /// A flush during the run. It sweeps, and shows every counter and gauge that was not gone before, and the values
    /// recorded since the flush before. It takes time in the metrics that are not gone, and in the values. After want of
    /// memory the store is safe to use, but what its later flushes owe is not said.
    pub fn flush(&mut self, alloc: Global) -> Result<FlushRecord, NoMemory>
        ensures ok { IfOk result (λ flush. Flushes self.old flush self.new) }
        ensures err { OnErr result (FlushIsCutShort self.old self.new) }
    {
        let whole = self.whole;
        self.whole = false;
        let at = self.worker.log().len() as u64;
        let swept = self.worker.sweep(alloc)?;
        let list = swept.list.items();
        let flush = take_flush(alloc, &mut self.sums, &self.worker, at, list, list)?;
        self.flushes = self.flushes.and(&flush);
        self.whole = whole;
        Ok(flush)
    }

    /// How many events were decided, of which a store takes `MAX_EVENTS`.
    pub fn events(&self) -> usize
        ensures events { result ≡ length self.now.worker.events }
        ensures few { length self.now.worker.events ≤ MAX_EVENTS }
    {
        self.decided
    }

    /// All calls of the book so far, with their replies, while the store goes on. None of them has changed when it is
    /// asked again: a log only grows.
    pub fn log(&self) -> &[Entry]
        ensures log { result.now ≡ self.now.worker.book.log }
        ensures one_worker { self.now.worker.book.workers ≡ 1 }
        ensures legal { IsLegal self.now.worker.book }
        ensures lawful { All (λ entry. IsLawfulCall entry.call) self.now.worker.book.log }
        ensures accounts { self.now.whole ≡ true → AccountsSoFar self.now }
    {
        self.worker.log()
    }

    /// The end: the seat's, and the last flush, which shows every counter ever made. It gives the log besides.
    pub fn finish(self, alloc: Global) -> Result<LastFlush, NoMemory>
        ensures { IfOk result (λ given. Finishes self given) }
    {
        let PlainStore {
            worker,
            sums,
            decided: _,
            counted: _,
            flushes: _,
            whole: _,
        } = self;
        finish_parts(alloc, worker, sums)
    }
}
