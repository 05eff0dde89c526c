//! The state of a book.
ghost use Rattle.std.specs.Prelude.{◌≡◌, ℕ, ◌<◌, ◌≤◌, [], length, nat_le, Some, IsSome, slice_get, IfOk, OnOk, OnErr};
ghost use Rattle.std.specs.Option.{IsSomeAnd};
ghost use Rattle.stat_defs.specs.Names.{IsLocalName, IsFullName};
ghost use Rattle.stat_defs.specs.declared.history.Call.TheVariants as call;
ghost use Rattle.stat_defs.specs.declared.history.Reply.TheVariants as reply;
ghost use Rattle.book_state.specs.State.{live_scope, known, names_in, seat_of, metrics_of};
ghost use Rattle.book_state.specs.Finding.{scope_of, name_of, is_full, is_over_limit};
ghost use Rattle.book_state.specs.Step.{overdue_in, Works};
ghost use Rattle.book_state.specs.Follows.{tag_of};
ghost use Rattle.book_state.specs.Log.{empty};
ghost use Rattle.book_state.specs.Making.{MakesMetric};
ghost use Rattle.book_state.specs.Stored.{drawing, after_entry, IsNext, IsNoted, MakesOf, numbers_in, fresh_metric};

use crate::limits::{MAX_HISTOGRAMS, MAX_METRICS};
use crate::metrics::MetricTable;
use crate::names::full_name;
use crate::scopes::ScopeTable;
use crate::seats::{SeatRow, end_seat, least_tag, set_tag, tag_at};
use crate::tables::NameKey;
use ghost_list::GhostList;
use name_map::HashKey;
use stat_defs::{
    Call, Entry, Key, Kind, Life, Metric, MetricId, NoMemory, Numbers, Reply, ScopeId, Txt,
};
use std::alloc::Global;
use std::marker::Model;
use tag_rules::TagRules;

/// The scopes, metrics and seats of a book. Contracts see it as its tag rules, as the state that its entries gave, and
/// as the list of the scopes released so far. What a seat holds is seen by contracts alone and takes no memory.
#[derive(Drop)]
pub struct BookState {
    rules: TagRules,
    scopes: ScopeTable,
    metrics: MetricTable,
    /// The scopes released so far, in order.
    released: Vec<ScopeId>,
    seats: Vec<SeatRow>,
    past: GhostList<Entry>,
}

impl Model for BookState {
    ghost use Rattle.book_state.specs.Stored.{StateView};

    ghost Value = { StateView };

    ghost use Rattle.book_state.specs.StateKept.{shown, Kept};

    ghost view = { shown };

    ghost invariant = { Kept };
}

/// What a state leaves that takes no further entry: the tag rules, and every metric that was made. A metric's number
/// is its place.
#[derive(Drop)]
pub struct StateParts {
    pub rules: TagRules,
    pub metrics: Vec<Metric>,
}

impl BookState {
    /// The state before the first entry. Its tables are hashed under the fixed key.
    pub fn new(alloc: Global, rules: TagRules, workers: u32) -> Result<BookState, NoMemory>
        ensures { IfOk result (λ state. state ≡ record { tags = rules; state = empty workers; released = [] }) }
    {
        BookState::with_key(alloc, HashKey::fixed(), rules, workers)
    }

    /// The same, its tables hashed under this key.
    pub fn with_key(
        alloc: Global,
        key: HashKey,
        rules: TagRules,
        workers: u32,
    ) -> Result<BookState, NoMemory>
        ensures { IfOk result (λ state. state ≡ record { tags = rules; state = empty workers; released = [] }) }
    {
        let seat = SeatRow {
            tag: 0,
            ended: false,
        };
        let seats = vec![in alloc; seat; workers as usize]?;
        Ok(BookState {
            rules,
            scopes: ScopeTable::new(alloc, key),
            metrics: MetricTable::new(alloc, key),
            released: Vec::new(alloc),
            seats,
            past: GhostList::new(),
        })
    }

    /// The live scope of a label.
    pub fn live_scope(&self, label: &Txt) -> Option<u32>
        ensures { result ≡ live_scope self.now.state label.now }
    {
        self.scopes.live_id(label)
    }

    /// How many scopes were opened.
    pub fn opened(&self) -> u64
        ensures { result ≡ length self.now.state.scopes }
    {
        self.scopes.opened()
    }

    /// Gives up the tag rules and the metrics.
    pub fn into_parts(self, alloc: Global) -> Result<StateParts, NoMemory>
        ensures rules { IfOk result (λ parts. parts.rules ≡ self.tags) }
        ensures metrics { IfOk result (λ parts. parts.metrics.items ≡ metrics_of self.state) }
    {
        let BookState {
            rules,
            scopes: _,
            metrics,
            released: _,
            seats: _,
            past: _,
        } = self;
        Ok(StateParts {
            rules,
            metrics: metrics.into_metrics(alloc)?,
        })
    }

    /// How many metrics were made.
    pub fn made(&self) -> u32
        ensures { result ≡ length self.now.state.metrics }
    {
        self.metrics.made()
    }

    /// A metric that was made.
    pub fn metric(&self, id: MetricId) -> &Metric
        requires { id.0 < length self.now.state.metrics }
        ensures { IsSomeAnd (slice_get self.now.state.metrics id.0) (λ row. row.metric ≡ result.now) }
    {
        self.metrics.metric(id.0)
    }

    /// The metric of a kind and full name that is not gone.
    pub fn known(&self, name: &NameKey) -> Option<u32>
        ensures { result ≡ known self.now.state name.now.kind name.now.name }
    {
        self.metrics.known(name)
    }

    /// Whether no more metrics can be made.
    pub fn is_full(&self) -> bool
        ensures { result ≡ is_full self.now.state }
    {
        self.metrics.made() as usize >= MAX_METRICS
    }

    /// Whether no more metrics of this kind can be made.
    pub fn is_over_limit(&self, kind: Kind) -> bool
        ensures { result ≡ is_over_limit self.now.state kind }
    {
        kind == Kind::Histogram && self.metrics.histograms() as usize >= MAX_HISTOGRAMS
    }

    /// The metrics that are not gone, in the order of their numbers.
    pub fn names(&self, alloc: Global) -> Result<Vec<MetricId>, NoMemory>
        ensures { IfOk result (λ ids. ids.items ≡ names_in self.now.state) }
    {
        self.metrics.names(alloc)
    }

    /// The metrics that a sweep makes gone, in the order of their numbers.
    pub fn overdue(&self, alloc: Global) -> Result<Vec<MetricId>, NoMemory>
        ensures { IfOk result (λ ids. ids.items ≡ overdue_in self.now.state) }
    {
        self.metrics.overdue(alloc, least_tag(&self.seats))
    }

    /// The scopes released so far, in order.
    pub fn released(&self) -> &[ScopeId]
        ensures released { result.now ≡ self.now.released }
        ensures count { length result.now ≡ self.now.state.releases }
    {
        &self.released
    }

    /// How many releases a worker's seat has acknowledged.
    pub fn tag(&self, seat: u32) -> u64
        requires { Works self.now.state seat }
        ensures { result ≡ tag_of self.now.state seat }
    {
        tag_at(&self.seats, seat)
    }

    /// What a key means in the live scope of its label.
    pub fn name_key(&self, alloc: Global, scope: u32, key: &Key) -> Result<NameKey, NoMemory>
        requires scope { live_scope self.now.state key.now.label ≡ Some scope }
        requires name { IsLocalName key.now.name }
        ensures kind { IfOk result (λ name. name.kind ≡ key.now.kind) }
        ensures name { IfOk result (λ name. name.name ≡ name_of self.now.state key.now) }
        ensures full { IfOk result (λ name. IsFullName name.name) }
    {
        Ok(NameKey {
            kind: key.kind,
            name: full_name(alloc, self.scopes.prefix(scope), &key.name)?,
        })
    }
}

impl BookState {
    /// Applies an entry, which is a step from this state by the tag rules and some matcher.
    pub fn apply(&mut self, alloc: Global, entry: &Entry) -> Result<(), NoMemory>
        requires { IsNext self.old entry.now }
        ensures ok { OnOk result (self.new ≡ after_entry self.old entry.now) }
        ensures err { OnErr result (self.new ≡ self.old) }
    {
        match &entry.call {
            Call::OpenScope { label, prefix } => self.open(alloc, entry, label, prefix),
            Call::Release { label } => self.release(alloc, entry, label),
            Call::Find { key } => self.find(alloc, entry, key),
            Call::SetText { id, text } => self.set_text(entry, *id, text),
            Call::Ack => {
                self.ack(entry);
                Ok(())
            }
            Call::Sweep => {
                self.sweep(entry);
                Ok(())
            }
            Call::End => {
                self.end(entry);
                Ok(())
            }
        }
    }

    /// Applies the entry of a find that a metric of this number was known to.
    pub fn find_again(
        &mut self,
        alloc: Global,
        entry: &Entry,
        scope: u32,
        key: &Key,
        id: MetricId,
    ) -> Result<(), NoMemory>
        requires next { IsNext self.old entry.now }
        requires call { entry.now.call ≡ call.Find key.now }
        requires reply { entry.now.reply ≡ reply.Found id }
        requires scope { live_scope self.old.state key.now.label ≡ Some scope }
        ensures ok { OnOk result (self.new ≡ after_entry self.old entry.now) }
        ensures err { OnErr result (self.new ≡ self.old) }
    {
        let new = self.scopes.bear(alloc, scope, id.0)?;
        self.metrics.find_again(id.0, key.mode, new);
        self.past = self.past.and(entry);
        Ok(())
    }

    /// Applies the entry of a find that makes a metric of this name with these symbol numbers.
    pub fn make(
        &mut self,
        alloc: Global,
        entry: &Entry,
        scope: u32,
        key: &Key,
        name: NameKey,
    ) -> Result<(), NoMemory>
        requires { MakesMetric self.old scope key.now name entry.now }
        ensures ok { OnOk result (self.new ≡ after_entry self.old entry.now) }
        ensures err { OnErr result (self.new ≡ self.old) }
    {
        let metric = new_metric(
            alloc,
            &self.rules,
            key,
            &name.name,
            numbers_of(&entry.reply),
        )?;
        self.metrics
            .make(alloc, &mut self.scopes, scope, name, metric)?;
        self.past = self.past.and(entry);
        Ok(())
    }

    /// Applies the entry of a sweep, which takes no memory. Its time is linear in the metrics that are not gone.
    pub fn sweep(&mut self, entry: &Entry)
        requires next { IsNext self.old entry.now }
        requires call { entry.now.call ≡ call.Sweep }
        ensures { self.new ≡ after_entry self.old entry.now }
    {
        self.metrics.sweep(least_tag(&self.seats));
        self.past = self.past.and(entry);
    }
}

impl BookState {
    // An entry that changes nothing that is stored.
    fn note(&mut self, entry: &Entry)
        requires next { IsNext self.old entry.now }
        requires noted { IsNoted self.old entry.now }
        ensures { self.new ≡ after_entry self.old entry.now }
    {
        self.past = self.past.and(entry);
    }

    fn open(
        &mut self,
        alloc: Global,
        entry: &Entry,
        label: &Txt,
        prefix: &Txt,
    ) -> Result<(), NoMemory>
        requires next { IsNext self.old entry.now }
        requires call { entry.now.call ≡ call.OpenScope label.now prefix.now }
        ensures ok { OnOk result (self.new ≡ after_entry self.old entry.now) }
        ensures err { OnErr result (self.new ≡ self.old) }
    {
        let Reply::Opened(id) = &entry.reply else {
            self.note(entry);
            return Ok(());
        };
        self.scopes.open(alloc, id.0, label, prefix)?;
        self.past = self.past.and(entry);
        Ok(())
    }

    // It takes time in the metrics that the scope bears.
    fn release(&mut self, alloc: Global, entry: &Entry, label: &Txt) -> Result<(), NoMemory>
        requires next { IsNext self.old entry.now }
        requires call { entry.now.call ≡ call.Release label.now }
        ensures ok { OnOk result (self.new ≡ after_entry self.old entry.now) }
        ensures err { OnErr result (self.new ≡ self.old) }
    {
        let Reply::Released(id) = &entry.reply else {
            self.note(entry);
            return Ok(());
        };
        self.released.reserve(1)?;
        let borne = self.scopes.close(id.0, label);
        self.released.push_reserved(*id);
        let tag = self.released.len() as u64;
        self.metrics.lose_bearers(borne.as_slice(), tag);
        self.past = self.past.and(entry);
        Ok(())
    }

    fn find(&mut self, alloc: Global, entry: &Entry, key: &Key) -> Result<(), NoMemory>
        requires next { IsNext self.old entry.now }
        requires call { entry.now.call ≡ call.Find key.now }
        ensures ok { OnOk result (self.new ≡ after_entry self.old entry.now) }
        ensures err { OnErr result (self.new ≡ self.old) }
    {
        match &entry.reply {
            Reply::Found(id) => {
                let scope = self.scope_in(key);
                self.find_again(alloc, entry, scope, key, *id)
            }
            Reply::Made { .. } => {
                let scope = self.scope_in(key);
                let name = self.name_key(alloc, scope, key)?;
                self.make(alloc, entry, scope, key, name)
            }
            _ => {
                self.note(entry);
                Ok(())
            }
        }
    }

    // The live scope of a key's label.
    fn scope_in(&self, key: &Key) -> u32
        requires { IsSome (live_scope self.now.state key.now.label) }
        ensures { live_scope self.now.state key.now.label ≡ Some result }
    {
        self.live_scope(&key.label).unwrap()
    }

    fn set_text(&mut self, entry: &Entry, id: MetricId, text: &Txt) -> Result<(), NoMemory>
        requires next { IsNext self.old entry.now }
        requires call { entry.now.call ≡ call.SetText id text.now }
        ensures ok { OnOk result (self.new ≡ after_entry self.old entry.now) }
        ensures err { OnErr result (self.new ≡ self.old) }
    {
        let text = text.clone()?;
        self.metrics.set_text(id.0, text);
        self.past = self.past.and(entry);
        Ok(())
    }

    fn ack(&mut self, entry: &Entry)
        requires next { IsNext self.old entry.now }
        requires call { entry.now.call ≡ call.Ack }
        ensures { self.new ≡ after_entry self.old entry.now }
    {
        let tag = self.released.len() as u64;
        set_tag(&mut self.seats, entry.seat, tag);
        self.past = self.past.and(entry);
    }

    fn end(&mut self, entry: &Entry)
        requires next { IsNext self.old entry.now }
        requires call { entry.now.call ≡ call.End }
        ensures { self.new ≡ after_entry self.old entry.now }
    {
        end_seat(&mut self.seats, entry.seat);
        self.past = self.past.and(entry);
    }
}

/// The symbol numbers that a find's reply has.
pub fn numbers_of(reply: &Reply) -> &Numbers
    requires { MakesOf reply.now }
    ensures { result.now ≡ numbers_in reply.now }
{
    match reply {
        Reply::Made { numbers, .. } => numbers,
        _ => unreachable!(),
    }
}

// A live metric with the empty text.
fn new_metric(
    alloc: Global,
    rules: &TagRules,
    key: &Key,
    name: &Txt,
    numbers: &Numbers,
) -> Result<Metric, NoMemory>
    requires { IsFullName name.now }
    ensures { IfOk result (λ metric. metric ≡ fresh_metric rules.now key.now name.now numbers.now) }
{
    Ok(Metric {
        name: name.clone()?,
        kind: key.kind,
        mode: key.mode,
        numbers: numbers.clone()?,
        tagged: rules.split(alloc, name)?,
        text: Txt::of(alloc, b"")?,
        life: Life::Live,
    })
}
