//! The entries that a seat holds.
ghost use Rattle.std.specs.Prelude.{◌≡◌, ◌≤◌, ◌+◌, None, Some, true, not, filter, length, option_map, cond, All, []};
ghost use Rattle.std.specs.Prelude.{IfSome, OnOk, OnErr};
ghost use Rattle.std.specs.List.{list_any};
ghost use Rattle.std.specs.Option.{IsSomeAnd};
ghost use Rattle.indexmap.specs.IndexMap.{spare};
ghost use Rattle.stat_defs.specs.declared.events.Key.{Key as TheKey};
ghost use Rattle.stat_defs.specs.Keys.{held_under, is_through, HoldsOnce};
ghost use Rattle.thread_cache.specs.Keys.{asked};
ghost use Rattle.thread_cache.specs.Scopes.{is_live};
ghost use Rattle.thread_cache.specs.Held.{shown, held_with, held_without};

use crate::key::{CacheKey, copy_of};
use crate::query::Query;
use crate::scopes::{Scopes, drop_scopes, is_live};
use crate::table::{Slot, Table, count_live, open_scope, put, slot_of, tidy};
use indexmap::IndexMap;
use name_map::{HashKey, keys_differ, name_map};
use stat_defs::{Key, NoMemory, ScopeId, Verdict};
use std::alloc::Global;
use std::marker::Model;

/// What a worker's seat holds. Contracts see the entries, one for each key, in no order that means anything, and the
/// key that has room for an entry.
#[derive(Drop)]
pub struct Cache {
    pub(crate) table: Table,
    pub(crate) scopes: Scopes,
    // The key that has room, as the table will keep it.
    pub(crate) room: Option<CacheKey>,
    // About how many entries of the table have a dropped scope: 0 only where none has.
    pub(crate) stale: u64,
}

impl Model for Cache {
    ghost use Rattle.thread_cache.specs.Held.{CacheState, shown};
    ghost use Rattle.thread_cache.specs.Kept.{IsKept, state_of};

    ghost Value = { CacheState };

    ghost view = { state_of };

    ghost invariant = { IsKept };
}

// The verdict of a slot, if its scope is live.
#[inline(always)]
fn verdict_of(scopes: &Scopes, stale: u64, slot: Slot) -> Option<Verdict>
    requires { stale ≡ 0 → is_live scopes.now.entries slot.scope ≡ true }
    ensures { result ≡ cond (is_live scopes.now.entries slot.scope) (Some slot.verdict) None }
{
    if stale == 0 {
        return Some(slot.verdict);
    }
    if is_live(scopes, slot.scope) {
        return Some(slot.verdict);
    }
    None
}

// The verdict that the table has under the key that is asked for, if its scope is live.
#[inline(always)]
fn look_up(table: &Table, scopes: &Scopes, stale: u64, query: &Query<'_>) -> Option<Verdict>
    requires { stale ≡ 0 → All (λ e. is_live scopes.now.entries e.1.scope ≡ true) table.now.entries }
    ensures verdict { result ≡ option_map (λ held. held.verdict)
        (held_under (asked query.now) (shown scopes.now.entries table.now.entries)) }
    ensures once { HoldsOnce (shown scopes.now.entries table.now.entries) }
{
    keys_differ(table);
    match slot_of(table, query) {
        Some(slot) => verdict_of(scopes, stale, slot),
        None => None,
    }
}

impl Cache {
    /// A cache that holds nothing and has no room, and whose table is hashed under this key.
    pub fn with_key(alloc: Global, key: HashKey) -> Cache
        ensures { result ≡ record { entries = []; room = None } }
    {
        Cache {
            table: name_map(alloc, key),
            scopes: IndexMap::new(alloc),
            room: None,
            stale: 0,
        }
    }

    /// The same under the fixed key.
    pub fn new(alloc: Global) -> Cache
        ensures { result ≡ record { entries = []; room = None } }
    {
        Cache::with_key(alloc, HashKey::fixed())
    }

    /// The verdict that is held under the query's key. It takes no memory.
    #[inline(always)]
    pub fn hit(&self, query: &Query<'_>) -> Option<Verdict>
        ensures verdict { result ≡ option_map (λ held. held.verdict) (held_under (asked query.now) self.now.entries) }
        ensures free { result ≡ None → held_under (asked query.now) self.now.entries ≡ None }
        ensures once { HoldsOnce self.now.entries }
    {
        look_up(&self.table, &self.scopes, self.stale, query)
    }

    /// Makes room for an entry of the key, whose texts it shares. Room is no entry; it stays until the key is filled or
    /// another has it. After want of memory the cache is as it was.
    pub fn reserve(&mut self, key: &Key) -> Result<(), NoMemory>
        ensures reserved { OnOk result (self.new ≡ record self.old { room = Some key.now }) }
        ensures kept { OnErr result (self.new ≡ self.old) }
    {
        let copy = copy_of(key)?;
        self.table.reserve(1)?;
        self.scopes.reserve(1)?;
        self.room = Some(copy);
        Ok(())
    }

    /// Holds the verdict under the key that has room, found through this scope. It takes no memory.
    pub fn fill(&mut self, scope: ScopeId, verdict: Verdict)
        requires room { IsSomeAnd self.old.room (λ key. held_under key self.old.entries ≡ None) }
        ensures held { IfSome self.old.room (λ room. (key : TheKey) → held_under key self.new.entries
            ≡ held_with (record { key = room; scope = scope.0; verdict = verdict }) self.old.entries key) }
        ensures one_more { length self.new.entries ≡ length self.old.entries + 1 }
        ensures room { self.new.room ≡ None }
    {
        let Some(key) = self.room.take() else {
            return;
        };
        self.stale = open_scope(&mut self.table, &mut self.scopes, self.stale, scope);
        put(&mut self.table, key, Slot { scope, verdict });
    }

    /// Drops the entries of these scopes. It takes no memory.
    pub fn drop_released(&mut self, released: &[ScopeId])
        ensures entries { self.new.entries ≡ filter (λ held. not (is_through released.now held)) self.old.entries }
        ensures held { (key : TheKey) → held_under key self.new.entries
            ≡ held_without released.now (held_under key self.old.entries) }
        ensures room { self.new.room ≡ self.old.room }
    {
        keys_differ(&self.table);
        self.stale = drop_scopes(&mut self.scopes, released, self.stale);
        self.stale = tidy(&mut self.table, &mut self.scopes, self.stale);
    }

    /// How many entries are held, no two of them under one key. It looks at each of them.
    pub fn entries(&self) -> u64
        ensures count { result ≡ length self.now.entries }
        ensures once { HoldsOnce self.now.entries }
    {
        keys_differ(&self.table);
        count_live(&self.table, &self.scopes)
    }

    /// How many entries the table has: those that are held, and those of dropped scopes that were not taken out yet.
    pub fn table_len(&self) -> u64
        ensures { length self.now.entries ≤ result }
    {
        self.table.len() as u64
    }

    /// The key that the table is hashed under.
    pub fn hash_key(&self) -> HashKey {
        *self.table.hasher()
    }
}
