//! The scopes of a book, with an index of the labels that are live.
ghost use Rattle.std.specs.Prelude.{◌≡◌, ◌<◌, ◌^◌, ◌++◌, ◌∷◌, [], length, map, not, IfOk, OnOk, OnErr, Some, None};
ghost use Rattle.std.specs.Prelude.{slice_get, nat_eq, true};
ghost use Rattle.std.specs.Option.{IsSomeAnd};
ghost use Rattle.std.specs.Cmp.Lexicographic.{pointwise};
ghost use Rattle.indexmap.specs.IndexMap.{get, Updates, IsUnchanged};
ghost use Rattle.book_state.specs.State.{live_in};
ghost use Rattle.book_state.specs.Step.{change_at};
ghost use Rattle.book_state.specs.Bearing.{has};
ghost use Rattle.book_state.specs.Scopes.{scope_of_view, opened, emptied, bearing};
ghost use Rattle.book_state.specs.ScopesKept.{row_shown};

use crate::numbers::NumberSet;
use crate::tables::LabelTable;
use ghost_list::GhostList;
use name_map::{HashKey, name_map};
use stat_defs::{NoMemory, Txt};
use std::alloc::Global;
use std::marker::Model;

// What a live scope has: its prefix, and the numbers of the metrics that it bears.
#[derive(Drop)]
struct LiveScope {
    prefix: Txt,
    bears: NumberSet,
}

// A scope. All scopes that were ever opened have a row, so what only a live one needs lies in a box that its release frees.
#[derive(Drop)]
struct ScopeRow {
    // Its label alone, which contracts see and no call asks for.
    label: GhostList<Txt>,
    // The prefix alone of a scope that was released.
    past_prefix: GhostList<Txt>,
    live: Option<Box<LiveScope>>,
}

/// The scopes that were opened so far; a scope's number is its place. Contracts see a table as the list of its scopes.
#[derive(Drop)]
pub struct ScopeTable {
    rows: Vec<ScopeRow>,
    /// The numbers of the live scopes.
    live: LabelTable,
}

impl Model for ScopeTable {
    ghost use Rattle.std.specs.Prelude.{List};
    ghost use Rattle.book_state.specs.Scopes.{ScopeView};

    ghost Value = { List ScopeView };

    ghost use Rattle.book_state.specs.ScopesKept.{shown, Kept};

    ghost view = { shown };

    ghost invariant = { Kept };
}

impl ScopeTable {
    /// A table without scopes, which is hashed under this key.
    pub fn new(alloc: Global, key: HashKey) -> ScopeTable
        ensures { result ≡ [] }
    {
        ScopeTable {
            rows: Vec::new(alloc),
            live: name_map(alloc, key),
        }
    }

    /// How many scopes were opened.
    pub fn opened(&self) -> u64
        ensures { result ≡ length self.now }
    {
        self.rows.len() as u64
    }

    /// The number of the live scope of a label.
    pub fn live_id(&self, label: &Txt) -> Option<u32>
        ensures { result ≡ live_in (map scope_of_view self.now) label.now }
    {
        number_of(&self.live, label)
    }

    /// The prefix of a live scope.
    pub fn prefix(&self, id: u32) -> &Txt
        requires { IsSomeAnd (slice_get self.now id) (λ scope. scope.live ≡ true) }
        ensures { IsSomeAnd (slice_get self.now id) (λ scope. scope.prefix ≡ result.now) }
    {
        match &self.rows[id as usize].live {
            Some(scope) => &scope.prefix,
            None => unreachable!(),
        }
    }

    /// Opens a scope of a label that is not live, with the next number.
    pub fn open(
        &mut self,
        alloc: Global,
        id: u32,
        label: &Txt,
        prefix: &Txt,
    ) -> Result<(), NoMemory>
        requires free { live_in (map scope_of_view self.old) label.now ≡ None }
        requires next { id ≡ length self.old }
        ensures opened { OnOk result (self.new ≡ self.old ++ opened label.now prefix.now ∷ []) }
        ensures few { length self.old < 2 ^ 32 }
        ensures err { OnErr result (self.new ≡ self.old) }
    {
        let key = label.clone()?;
        let row = live_row(alloc, label, prefix)?;
        self.rows.reserve(1)?;
        list_label(&mut self.live, key, id)?;
        self.rows.push_reserved(row);
        Ok(())
    }

    /// Closes the live scope of a label, and gives the metrics that it bore.
    pub fn close(&mut self, id: u32, label: &Txt) -> NumberSet
        requires { live_in (map scope_of_view self.old) label.now ≡ Some id }
        ensures closed { self.new ≡ change_at emptied id self.old }
        ensures borne { IsSomeAnd (slice_get self.old id) (λ scope. result ≡ scope.bears) }
    {
        unlist_label(&mut self.live, label);
        empty_row(&mut self.rows, id as usize)
    }

    /// Lets a live scope bear a metric besides, and returns whether it did not bear it before.
    pub fn bear(&mut self, alloc: Global, id: u32, metric: u32) -> Result<bool, NoMemory>
        requires { IsSomeAnd (slice_get self.old id) (λ scope. scope.live ≡ true) }
        ensures bears { OnOk result (self.new ≡ change_at (bearing metric) id self.old) }
        ensures new { IfOk result (λ new. IsSomeAnd (slice_get self.old id)
            (λ scope. new ≡ not (has metric scope.bears))) }
        ensures err { OnErr result (self.new ≡ self.old) }
    {
        bear_at(alloc, &mut self.rows, id as usize, metric)
    }
}

// The number of a label that is live.
fn number_of(live: &LabelTable, label: &Txt) -> Option<u32>
    ensures { result ≡ get (pointwise nat_eq) live.now label.now }
{
    live.get(label).copied()
}

fn list_label(live: &mut LabelTable, label: Txt, id: u32) -> Result<(), NoMemory>
    ensures ok { OnOk result (Updates (pointwise nat_eq) live.old live.new label (Some id)) }
    ensures err { OnErr result (IsUnchanged live.old live.new) }
{
    live.insert(label, id)?;
    Ok(())
}

fn unlist_label(live: &mut LabelTable, label: &Txt)
    ensures { Updates (pointwise nat_eq) live.old live.new label.now None }
{
    let _ = live.swap_remove(label);
}

// A live scope that bears nothing.
fn live_row(alloc: Global, label: &Txt, prefix: &Txt) -> Result<ScopeRow, NoMemory>
    ensures { IfOk result (λ row. row_shown row ≡ opened label.now prefix.now) }
{
    let scope = LiveScope {
        prefix: prefix.clone()?,
        bears: NumberSet::new(),
    };
    Ok(ScopeRow {
        label: GhostList::new().and(label),
        past_prefix: GhostList::new(),
        live: Some(Box::new(alloc, scope)?),
    })
}

// Makes the scope at a place dead, and gives the metrics that it bore.
fn empty_row(rows: &mut Vec<ScopeRow>, at: usize) -> NumberSet
    requires { IsSomeAnd (slice_get (map row_shown rows.old.items) at) (λ scope. scope.live ≡ true) }
    ensures emptied { map row_shown rows.new.items ≡ change_at emptied at (map row_shown rows.old.items) }
    ensures borne { IsSomeAnd (slice_get (map row_shown rows.old.items) at) (λ scope. result ≡ scope.bears) }
{
    end_row(&mut rows[at])
}

// Makes a scope dead, and gives the metrics that it bore.
fn end_row(row: &mut ScopeRow) -> NumberSet
    requires { (row_shown row.old).live ≡ true }
    ensures emptied { row_shown row.new ≡ emptied (row_shown row.old) }
    ensures borne { result ≡ (row_shown row.old).bears }
{
    let Some(scope) = row.live.take() else {
        unreachable!()
    };
    let LiveScope { prefix, bears } = Box::into_inner(scope);
    row.past_prefix = GhostList::new().and(&prefix);
    bears
}

// Lets the live scope at a place bear a metric besides.
fn bear_at(
    alloc: Global,
    rows: &mut Vec<ScopeRow>,
    at: usize,
    metric: u32,
) -> Result<bool, NoMemory>
    requires { IsSomeAnd (slice_get (map row_shown rows.old.items) at) (λ scope. scope.live ≡ true) }
    ensures bears { OnOk result (map row_shown rows.new.items
        ≡ change_at (bearing metric) at (map row_shown rows.old.items)) }
    ensures new { IfOk result (λ new. IsSomeAnd (slice_get (map row_shown rows.old.items) at)
        (λ scope. new ≡ not (has metric scope.bears))) }
    ensures err { OnErr result (map row_shown rows.new.items ≡ map row_shown rows.old.items) }
{
    bear_in(alloc, &mut rows[at], metric)
}

// Lets a live scope bear a metric besides.
fn bear_in(alloc: Global, row: &mut ScopeRow, metric: u32) -> Result<bool, NoMemory>
    requires { (row_shown row.old).live ≡ true }
    ensures bears { OnOk result (row_shown row.new ≡ bearing metric (row_shown row.old)) }
    ensures new { IfOk result (λ new. new ≡ not (has metric (row_shown row.old).bears)) }
    ensures err { OnErr result (row_shown row.new ≡ row_shown row.old) }
{
    let Some(mut scope) = row.live.take() else {
        unreachable!()
    };
    let new = scope.bears.insert(alloc, metric);
    row.live = Some(scope);
    new
}
