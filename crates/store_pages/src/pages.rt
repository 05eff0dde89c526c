//! The store with its pages.
ghost use Rattle.std.specs.Prelude.{◌≡◌, ◌≤◌, IfOk, IfErr, length};
ghost use Rattle.stat_defs.specs.Borrowed.{event_of};
ghost use Rattle.stat_defs.specs.Configs.{IsConfig};
ghost use Rattle.stat_defs.specs.Events.{IsLawfulEvent};
ghost use Rattle.tag_rules.specs.Unbuilt.{HasNoStore};
ghost use Rattle.text_parts.specs.Histograms.{HasHistograms};
ghost use Rattle.plain_store.specs.declared.worker.TheConstants as worker;
ghost use Rattle.store_pages.specs.Pages.{new_pages, IsApplied, ApplyFails, GivesPage, PageFails};

use crate::fault::{ApplyFault, PageFault};
use live_view::LiveViews;
use name_map::HashKey;
use plain_store::{MAX_EVENTS, PlainStore};
use stat_defs::{Config, Event, EventRef, FlushView, Verdict};
use std::alloc::Global;
use std::marker::Model;
use tag_rules::{Buckets, TagFault, rules_of};

/// A store on one thread, and the pages of its flushes while it goes on. Contracts see it as the store, and whether no
/// page was cut short by want of memory.
#[derive(Drop)]
pub struct StorePages<'a> {
    store: PlainStore,
    views: LiveViews<'a>,
    whole: bool,
}

impl<'a> Model for StorePages<'a> {
    ghost use Rattle.store_pages.specs.Pages.{PagesHistory};

    ghost Value = { PagesHistory };

    ghost use Rattle.store_pages.specs.PagesKept.{shown, IsKept};

    ghost view = { shown };

    ghost invariant = { IsKept };
}

impl<'a> StorePages<'a> {
    /// A store of this configuration without events and pages, its tables hashed under a fixed key. The bucket settings
    /// are those of [`buckets_of`].
    ///
    /// [`buckets_of`]: crate::buckets_of
    pub fn open(
        alloc: Global,
        config: &'a Config,
        buckets: &'a Buckets,
    ) -> Result<StorePages<'a>, TagFault>
        requires config { IsConfig config.now }
        requires buckets { buckets.now ≡ config.now.buckets }
        ensures opened { IfOk result (λ pages. pages ≡ new_pages config.now) }
        ensures refused { IfErr result (λ fault. HasNoStore config.now fault) }
    {
        StorePages::open_with_key(alloc, HashKey::fixed(), config, buckets)
    }

    /// The same, its tables hashed under this key, such as one that was drawn: where names come from outside, no one can
    /// choose them to be slow.
    pub fn open_with_key(
        alloc: Global,
        key: HashKey,
        config: &'a Config,
        buckets: &'a Buckets,
    ) -> Result<StorePages<'a>, TagFault>
        requires config { IsConfig config.now }
        requires buckets { buckets.now ≡ config.now.buckets }
        ensures opened { IfOk result (λ pages. pages ≡ new_pages config.now) }
        ensures refused { IfErr result (λ fault. HasNoStore config.now fault) }
    {
        let rules = rules_of(alloc, config)?;
        let views = LiveViews::new(alloc, config, rules, buckets, 1)?;
        let store = PlainStore::build_with_key(alloc, key, config)?;
        Ok(StorePages {
            store,
            views,
            whole: true,
        })
    }

    /// Decides an event, and counts what it adds where it is accepted, for the pages to come.
    pub fn apply(&mut self, alloc: Global, event: &Event) -> Result<Verdict, ApplyFault>
        requires { IsLawfulEvent event.now }
        ensures ok { IfOk result (λ verdict. IsApplied self.old event.now verdict self.new) }
        ensures err { IfErr result (λ fault. ApplyFails self.old event.now fault self.new) }
    {
        self.apply_ref(alloc, &event.borrowed())
    }

    /// The same of an event whose texts are borrowed. An event on a key that is held, which is no text, takes one
    /// look-up, and no memory where its histogram has a value already.
    pub fn apply_ref(&mut self, alloc: Global, event: &EventRef<'_>) -> Result<Verdict, ApplyFault>
        requires { IsLawfulEvent (event_of event.now) }
        ensures ok { IfOk result (λ verdict. IsApplied self.old (event_of event.now) verdict self.new) }
        ensures err { IfErr result (λ fault. ApplyFails self.old (event_of event.now) fault self.new) }
    {
        if self.store.events() == MAX_EVENTS {
            return Err(ApplyFault::Full);
        }
        Ok(self.store.apply_ref(alloc, event)?)
    }

    /// Flushes the store, and shows that flush: the units and values since the page before, the words of the gauges, and
    /// the totals of all pages so far. A last page has all that was counted, so a store needs no other end. It takes time
    /// in the metrics, and in the entries and values that are new. Every text can be written of a page.
    pub fn page(&mut self, alloc: Global) -> Result<FlushView, PageFault>
        ensures ok { IfOk result (λ shown. GivesPage self.old shown self.new) }
        ensures texts { IfOk result (λ shown. HasHistograms shown) }
        ensures err { IfErr result (λ fault. PageFails self.old fault self.new) }
    {
        if !self.whole {
            return Err(PageFault::CutShort);
        }
        self.whole = false;
        let flush = self.store.flush(alloc)?;
        let shown = self.views.show(alloc, self.store.log(), &flush)?;
        self.whole = true;
        Ok(shown)
    }

    /// How many events were decided, of which a store takes `MAX_EVENTS`.
    pub fn events(&self) -> usize
        ensures events { result ≡ length self.now.store.worker.events }
        ensures few { length self.now.store.worker.events ≤ worker.MAX_EVENTS }
    {
        self.store.events()
    }
}
