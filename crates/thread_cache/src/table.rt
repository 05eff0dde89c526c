//! The table of entries, some of which have a dropped scope.
ghost use Rattle.std.specs.Prelude.{◌≡◌, ◌<◌, ◌≤◌, ◌+◌, true, All, filter, length, slice_get, Some};
ghost use Rattle.indexmap.specs.IndexMap.{spare, insert_entry, IsUnique};
ghost use Rattle.thread_cache.specs.Scopes.{is_live, is_listed};
ghost use Rattle.thread_cache.specs.Keys.{asked};
ghost use Rattle.thread_cache.specs.Held.{shown, slot_under};
ghost use Rattle.thread_cache.specs.declared.key.CacheKey.{CacheKey};
ghost use Rattle.thread_cache.specs.declared.table.Slot.{Slot};

use crate::key::CacheKey;
use crate::query::Query;
use crate::scopes::{Scopes, Standing, count_entry, forget_dropped, is_live, list_scope};
use name_map::{NameMap, keys_differ};
use stat_defs::{ScopeId, Verdict};

/// So many entries of dropped scopes may stay in a small table: to go through it at each release would cost more than
/// they do.
const FEW_STALE: u64 = 8;

const _: () = prove!(FEW_STALE == 8);

/// What is held under a key: the scope that it was found through, and the verdict.
#[derive(Clone, Copy)]
pub(crate) struct Slot {
    pub(crate) scope: ScopeId,
    pub(crate) verdict: Verdict,
}

pub(crate) type Table = NameMap<CacheKey, Slot>;

// What the table has under the key that is asked for.
#[inline(always)]
pub(crate) fn slot_of(table: &Table, query: &Query<'_>) -> Option<Slot>
    ensures { result ≡ slot_under (asked query.now) table.now.entries }
{
    match table.get(query) {
        Some(slot) => Some(*slot),
        None => None,
    }
}

// Puts an entry where there is room for it.
pub(crate) fn put(table: &mut Table, key: CacheKey, slot: Slot)
    requires { 0 < spare table.old }
    ensures entries { table.new.entries ≡ insert_entry ⟦<CacheKey as PartialEq>⟧.eq table.old.entries key slot }
    ensures spare { spare table.old ≤ spare table.new + 1 }
    ensures different { IsUnique ⟦<CacheKey as PartialEq>⟧.eq table.old }
    ensures still_different { IsUnique ⟦<CacheKey as PartialEq>⟧.eq table.new }
{
    keys_differ(table);
    let _ = table.insert(key, slot);
}

// Takes the entries of dropped scopes out.
fn keep_live(table: &mut Table, scopes: &Scopes)
    ensures kept { table.new.entries ≡ filter (λ e. is_live scopes.now.entries e.1.scope) table.old.entries }
    ensures spare { spare table.old ≤ spare table.new }
{
    table.retain(
        |_key: &CacheKey, slot: &mut Slot| -> bool
            ensures { (result ≡ is_live scopes.entry.now.entries slot.old.scope) × (slot.new ≡ slot.old) }
        { is_live(scopes, slot.scope) },
    );
}

// Takes the entries of dropped scopes out, and these scopes.
pub(crate) fn purge(table: &mut Table, scopes: &mut Scopes)
    ensures shown { shown scopes.new.entries table.new.entries ≡ shown scopes.old.entries table.old.entries }
    ensures all_live { All (λ e. is_live scopes.new.entries e.1.scope ≡ true) table.new.entries }
    ensures live { (s : ScopeId) → is_live scopes.new.entries s ≡ is_live scopes.old.entries s }
    ensures listed { (s : ScopeId) → is_listed scopes.new.entries s ≡ is_live scopes.old.entries s }
    ensures table_room { spare table.old ≤ spare table.new }
    ensures scopes_room { spare scopes.old ≤ spare scopes.new }
{
    keep_live(table, scopes);
    forget_dropped(scopes);
}

// Counts an entry more of a scope, which is live afterwards, and answers how stale the table is then. Where the scope
// was dropped before, its entries are taken out first.
pub(crate) fn open_scope(table: &mut Table, scopes: &mut Scopes, stale: u64, scope: ScopeId) -> u64
    requires listed { All (λ e. is_listed scopes.old.entries e.1.scope ≡ true) table.old.entries }
    requires live { stale ≡ 0 → All (λ e. is_live scopes.old.entries e.1.scope ≡ true) table.old.entries }
    requires room { 0 < spare scopes.old }
    ensures shown { shown scopes.new.entries table.new.entries ≡ shown scopes.old.entries table.old.entries }
    ensures opened { is_live scopes.new.entries scope ≡ true }
    ensures listed { All (λ e. is_listed scopes.new.entries e.1.scope ≡ true) table.new.entries }
    ensures live { result ≡ 0 → All (λ e. is_live scopes.new.entries e.1.scope ≡ true) table.new.entries }
    ensures table_room { spare table.old ≤ spare table.new }
{
    match count_entry(scopes, scope) {
        Standing::Live => stale,
        Standing::Unlisted => {
            list_scope(scopes, scope);
            stale
        }
        Standing::Dropped => {
            purge(table, scopes);
            list_scope(scopes, scope);
            0
        }
    }
}

// Takes the entries of dropped scopes out where they are about as many as the others and more than a few, and answers
// how stale the table is then.
pub(crate) fn tidy(table: &mut Table, scopes: &mut Scopes, stale: u64) -> u64
    requires listed { All (λ e. is_listed scopes.old.entries e.1.scope ≡ true) table.old.entries }
    requires live { stale ≡ 0 → All (λ e. is_live scopes.old.entries e.1.scope ≡ true) table.old.entries }
    ensures shown { shown scopes.new.entries table.new.entries ≡ shown scopes.old.entries table.old.entries }
    ensures listed { All (λ e. is_listed scopes.new.entries e.1.scope ≡ true) table.new.entries }
    ensures live { result ≡ 0 → All (λ e. is_live scopes.new.entries e.1.scope ≡ true) table.new.entries }
    ensures table_room { spare table.old ≤ spare table.new }
    ensures scopes_room { spare scopes.old ≤ spare scopes.new }
{
    if stale <= FEW_STALE.max(table.len() as u64 / 2) {
        return stale;
    }
    purge(table, scopes);
    0
}

// Whether the entry at that place has a live scope.
fn is_live_at(table: &Table, scopes: &Scopes, at: usize) -> bool
    ensures { (e : CacheKey × Slot) → slice_get table.now.entries at ≡ Some e → result
        ≡ is_live scopes.now.entries e.1.scope }
{
    match table.get_index(at) {
        Some((_, slot)) => is_live(scopes, slot.scope),
        None => false,
    }
}

// How many entries have a live scope.
pub(crate) fn count_live(table: &Table, scopes: &Scopes) -> u64
    ensures { result ≡ length (shown scopes.now.entries table.now.entries) }
{
    let mut count = 0;
    for at in 0..table.len() {
        if is_live_at(table, scopes, at) {
            count += 1;
        }
    }
    count
}
