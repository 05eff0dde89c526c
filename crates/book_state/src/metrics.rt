//! The metrics of a book, with an index of the names that are not gone.
ghost use Rattle.std.specs.Prelude.{◌≡◌, ◌<◌, ◌+◌, ◌^◌, ◌++◌, ◌∷◌, [], None, length, map, All, IfOk, OnOk, OnErr};
ghost use Rattle.std.specs.Prelude.{slice_get, true, false, not, filter, if◌then◌else◌};
ghost use Rattle.stat_defs.specs.declared.ids.Kind.TheVariants.{Histogram};
ghost use Rattle.std.specs.Option.{IsSomeAnd};
ghost use Rattle.indexmap.specs.IndexMap.{get, spare};
ghost use Rattle.book_state.specs.declared.limits.TheConstants.{MAX_METRICS};
ghost use Rattle.book_state.specs.State.{known_in, histograms_in, names_of, ids_from, is_gone, same_kind};
ghost use Rattle.book_state.specs.Step.{change_at};
ghost use Rattle.book_state.specs.Scopes.{bearing};
ghost use Rattle.book_state.specs.Metrics.{metric_of, change_all, lose, found_again, with_text, is_overdue};
ghost use Rattle.book_state.specs.Metrics.{overdue_among, gone_at, swept_row, IsNamed};

use crate::scopes::ScopeTable;
use crate::tables::{NameKey, NameTable};
use name_map::{HashKey, name_map};
use stat_defs::{Kind, Life, Metric, MetricId, Mode, NoMemory, Txt};
use std::alloc::Global;
use std::marker::Model;

/// A metric, and how many scopes bear it.
#[derive(Drop)]
pub struct MetricRow {
    metric: Metric,
    bearers: u64,
}

/// The metrics that were made so far; a metric's number is its place. Contracts see a table as the list of its rows.
#[derive(Drop)]
pub struct MetricTable {
    rows: Vec<MetricRow>,
    /// The numbers of the metrics that are not gone, rising.
    known: NameTable,
    /// How many histograms were made.
    histograms: u32,
}

impl Model for MetricTable {
    ghost use Rattle.std.specs.Prelude.{List};
    ghost use Rattle.book_state.specs.declared.metrics.MetricRow.{MetricRow};

    ghost Value = { List MetricRow };

    ghost use Rattle.book_state.specs.MetricsKept.{shown, Kept};

    ghost view = { shown };

    ghost invariant = { Kept };
}

impl MetricTable {
    /// A table without metrics, which is hashed under this key.
    pub fn new(alloc: Global, key: HashKey) -> MetricTable
        ensures { result ≡ [] }
    {
        MetricTable {
            rows: Vec::new(alloc),
            known: name_map(alloc, key),
            histograms: 0,
        }
    }

    /// Every metric that was made, in the order of their numbers.
    pub fn into_metrics(self, alloc: Global) -> Result<Vec<Metric>, NoMemory>
        ensures { IfOk result (λ metrics. metrics.items ≡ map metric_of self) }
    {
        Ok(self.rows.into_iter().map(|row| row.metric).collect(alloc)?)
    }

    /// How many metrics were made.
    pub fn made(&self) -> u32
        ensures { result ≡ length self.now }
    {
        self.rows.len() as u32
    }

    /// How many histograms were made.
    pub fn histograms(&self) -> u32
        ensures { result ≡ histograms_in (map metric_of self.now) }
    {
        self.histograms
    }

    /// A metric by its number.
    pub fn metric(&self, id: u32) -> &Metric
        requires { id < length self.now }
        ensures { IsSomeAnd (slice_get self.now id) (λ row. row.metric ≡ result.now) }
    {
        &self.rows[id as usize].metric
    }

    /// The metric of a kind and full name that is not gone.
    pub fn known(&self, name: &NameKey) -> Option<u32>
        ensures { result ≡ known_in (map metric_of self.now) name.now.kind name.now.name }
    {
        number_of(&self.known, name)
    }

    /// The metrics that are not gone, in the order of their numbers.
    pub fn names(&self, alloc: Global) -> Result<Vec<MetricId>, NoMemory>
        ensures { IfOk result (λ ids. ids.items ≡ names_of (map metric_of self.now)) }
    {
        ids_in(alloc, self.known.values().as_slice())
    }

    /// The retired metrics whose releases all have acknowledged, in the order of their numbers, where `least` is the
    /// least tag of a worker that has not ended.
    pub fn overdue(&self, alloc: Global, least: Option<u64>) -> Result<Vec<MetricId>, NoMemory>
        ensures { IfOk result (λ ids. ids.items
            ≡ ids_from (λ metric. is_overdue least metric.life) 0 (map metric_of self.now)) }
    {
        overdue_in(alloc, &self.rows, self.known.values().as_slice(), least)
    }

    /// Makes a metric, which this live scope alone bears.
    pub fn make(
        &mut self,
        alloc: Global,
        scopes: &mut ScopeTable,
        scope: u32,
        name: NameKey,
        metric: Metric,
    ) -> Result<(), NoMemory>
        requires scope { IsSomeAnd (slice_get scopes.old scope) (λ row. row.live ≡ true) }
        requires new { known_in (map metric_of self.old) name.kind name.name ≡ None }
        requires named { IsNamed name metric }
        requires room { length self.old < MAX_METRICS }
        ensures made { OnOk result (self.new ≡ self.old ++ record { metric = metric; bearers = 1 } ∷ []) }
        ensures borne { OnOk result (scopes.new ≡ change_at (bearing (length self.old)) scope scopes.old) }
        ensures metrics_err { OnErr result (self.new ≡ self.old) }
        ensures scopes_err { OnErr result (scopes.new ≡ scopes.old) }
    {
        let id = self.rows.len() as u32;
        let histograms = self.histograms + histogram(metric.kind);
        self.rows.reserve(1)?;
        self.known.reserve(1)?;
        let _new = scopes.bear(alloc, scope, id)?;
        self.histograms = histograms;
        self.rows.push_reserved(MetricRow { metric, bearers: 1 });
        list_name(&mut self.known, name, id);
        Ok(())
    }

    /// Makes a metric live again, which one more bearer has found where `new` says so.
    pub fn find_again(&mut self, id: u32, mode: Mode, new: bool)
        requires { IsSomeAnd (slice_get self.old id)
            (λ row. (is_gone row.metric.life ≡ false) × (row.bearers + 1 < 2 ^ 64)) }
        ensures { self.new ≡ change_at (found_again mode new) id self.old }
    {
        find_row(&mut self.rows[id as usize], mode, new);
    }

    /// Replaces a text.
    pub fn set_text(&mut self, id: u32, text: Txt)
        requires { id < length self.old }
        ensures { self.new ≡ change_at (with_text text) id self.old }
    {
        self.rows[id as usize].metric.text = text;
    }

    /// Takes a bearer from each of these metrics. Those that have none left are retired at the tag.
    pub fn lose_bearers(&mut self, ids: &[u32], tag: u64)
        requires { All (λ id. IsSomeAnd (slice_get self.old id) (λ row. is_gone row.metric.life ≡ false)) ids.now }
        ensures { self.new ≡ change_all (lose tag) ids.now self.old }
    {
        lose_each(&mut self.rows, ids, tag);
    }

    /// Makes the metrics gone that [`MetricTable::overdue`] tells.
    pub fn sweep(&mut self, least: Option<u64>)
        ensures { self.new ≡ map (swept_row least) self.old }
    {
        sweep_each(&mut self.rows, self.known.values().as_slice(), least);
        forget_gone(&mut self.known, &self.rows);
    }
}

// The number of a name that is not gone.
fn number_of(known: &NameTable, name: &NameKey) -> Option<u32>
    ensures { result ≡ get ⟦<NameKey as PartialEq>⟧.eq known.now name.now }
{
    known.get(name).copied()
}

// 1 for a histogram, else 0.
fn histogram(kind: Kind) -> u32
    ensures { result ≡ (if same_kind kind Histogram then 1 else 0) }
{
    match kind {
        Kind::Histogram => 1,
        Kind::Counter | Kind::Gauge | Kind::Text => 0,
    }
}

// Lists a new name, for which there is room.
fn list_name(known: &mut NameTable, name: NameKey, id: u32)
    requires room { 0 < spare known.old }
    requires new { get ⟦<NameKey as PartialEq>⟧.eq known.old name ≡ None }
    ensures { known.new.entries ≡ known.old.entries ++ (name, id) ∷ [] }
{
    let _listed = known.insert(name, id);
}

fn ids_in(alloc: Global, ids: &[u32]) -> Result<Vec<MetricId>, NoMemory>
    ensures { IfOk result (λ all. all.items ≡ map (λ id. record { 0 = id }) ids.now) }
{
    Ok(ids.iter().map(|id| MetricId(*id)).collect(alloc)?)
}

// Those of the metrics that are overdue.
fn overdue_in(
    alloc: Global,
    rows: &[MetricRow],
    ids: &[u32],
    least: Option<u64>,
) -> Result<Vec<MetricId>, NoMemory>
    requires { All (λ id. id < length rows.now) ids.now }
    ensures { IfOk result (λ all. all.items ≡ overdue_among least rows.now ids.now) }
{
    let mut all = Vec::new(alloc);
    for id in ids {
        if is_overdue(least, rows[*id as usize].metric.life) {
            all.push(MetricId(*id))?;
        }
    }
    Ok(all)
}

// Whether a metric is retired, and all have acknowledged its release.
fn is_overdue(least: Option<u64>, life: Life) -> bool
    ensures { result ≡ is_overdue least life }
{
    match life {
        Life::Live | Life::Gone => false,
        Life::Retired(release) => match least {
            None => true,
            Some(tag) => release <= tag,
        },
    }
}

// Takes the names of metrics that are gone out of the index.
fn forget_gone(known: &mut NameTable, rows: &[MetricRow])
    ensures { known.new.entries ≡ filter (λ name. not (gone_at rows.now name.1)) known.old.entries }
{
    known.retain(
        |_name: &NameKey, id: &mut u32| -> bool
            ensures { (result ≡ not (gone_at rows.entry.now id.old)) × (id.new ≡ id.old) }
        { !is_gone_at(rows, *id) },
    );
}

// Whether the metric of this number is gone.
fn is_gone_at(rows: &[MetricRow], id: u32) -> bool
    ensures { result ≡ gone_at rows.now id }
{
    let Some(row) = rows.get(id as usize) else {
        return false;
    };
    match row.metric.life {
        Life::Live | Life::Retired(_) => false,
        Life::Gone => true,
    }
}

// A metric that is found.
fn find_row(row: &mut MetricRow, mode: Mode, new: bool)
    requires { row.old.bearers + 1 < 2 ^ 64 }
    ensures { row.new ≡ found_again mode new row.old }
{
    row.metric.life = Life::Live;
    if row.metric.mode == Mode::Uninit {
        row.metric.mode = mode;
    }
    if new {
        row.bearers += 1;
    }
}

// Takes a bearer from each of these metrics.
fn lose_each(rows: &mut Vec<MetricRow>, ids: &[u32], tag: u64)
    requires { All (λ id. id < length rows.old.items) ids.now }
    ensures { rows.new.items ≡ change_all (lose tag) ids.now rows.old.items }
{
    for id in ids {
        lose_bearer(&mut rows[*id as usize], tag);
    }
}

// Takes a bearer from a metric.
fn lose_bearer(row: &mut MetricRow, tag: u64)
    ensures { row.new ≡ lose tag row.old }
{
    if row.bearers <= 1 {
        row.metric.life = Life::Retired(tag);
        row.bearers = 0;
    } else {
        row.bearers -= 1;
    }
}

// Makes those of the metrics gone that are overdue.
fn sweep_each(rows: &mut Vec<MetricRow>, ids: &[u32], least: Option<u64>)
    requires { All (λ id. id < length rows.old.items) ids.now }
    ensures { rows.new.items ≡ change_all (swept_row least) ids.now rows.old.items }
{
    for id in ids {
        sweep_row(&mut rows[*id as usize], least);
    }
}

// Makes a metric gone that is overdue.
fn sweep_row(row: &mut MetricRow, least: Option<u64>)
    ensures { row.new ≡ swept_row least row.old }
{
    if is_overdue(least, row.metric.life) {
        row.metric.life = Life::Gone;
    }
}
