//! What a cache holds, by its calls.
ghost use Rattle.std.specs.Prelude.{◌≡◌, IfOk};
ghost use Rattle.thread_cache.specs.Keys.{asked};

use name_map::HashKey;
use stat_defs::{Key, Kind, MetricId, Mode, NoMemory, ScopeId, Txt, Verdict};
use std::alloc::Global;
use std::hash::{BuildHasher, Hasher};
use std::process::Abort;
use thread_cache::{Cache, Query};

fn may_be_sent<T: Send>(_value: &T) {}

// A query for a metric of that name and kind in the scope `s`.
fn ask(kind: Kind, name: &[u8]) -> Query<'_> {
    Query {
        label: b"s",
        kind,
        mode: Mode::Uninit,
        name,
    }
}

// The key that is asked for.
fn key_of(alloc: Global, query: &Query<'_>) -> Result<Key, NoMemory>
    ensures { IfOk result (λ key. key ≡ asked query.now) }
{
    Ok(Key {
        label: Txt::of(alloc, query.label)?,
        kind: query.kind,
        mode: query.mode,
        name: Txt::of(alloc, query.name)?,
    })
}

// Holds the key that is asked for, if it is not held.
fn hold(
    alloc: Global,
    cache: &mut Cache,
    query: &Query<'_>,
    scope: u32,
    id: u32,
) -> Result<(), NoMemory> {
    match cache.hit(query) {
        Some(_) => Ok(()),
        None => {
            cache.reserve(&key_of(alloc, query)?)?;
            cache.fill(ScopeId(scope), Verdict::Accepted(MetricId(id)));
            Ok(())
        }
    }
}

// Holds 1,000 counters over ten scopes.
fn hold_many(alloc: Global, cache: &mut Cache) -> Result<(), NoMemory> {
    for n in 0..1_000_u32 {
        let name = n.to_le_bytes();
        hold(alloc, cache, &ask(Kind::Counter, &name), n % 10, n)?;
    }
    Ok(())
}

// How many of these counters are held with the verdict of their number.
fn count_held(cache: &Cache) -> u32 {
    let mut found: u32 = 0;
    for n in 0..1_000_u32 {
        let name = n.to_le_bytes();
        if cache.hit(&ask(Kind::Counter, &name)) == Some(Verdict::Accepted(MetricId(n))) {
            found = found.saturating_add(1);
        }
    }
    found
}

fn hold_two(rt: &impl Abort, alloc: Global, cache: &mut Cache) -> Result<(), NoMemory> {
    let counter = ask(Kind::Counter, b"x");
    let gauge = ask(Kind::Gauge, b"x");
    may_be_sent(&gauge);
    hold(alloc, cache, &counter, 1, 5)?;
    assert_eq!(rt; cache.hit(&gauge), None);
    hold(alloc, cache, &gauge, 1, 6)?;
    assert_eq!(rt; cache.hit(&gauge), Some(Verdict::Accepted(MetricId(6))));
    assert_eq!(rt; cache.entries(), 2);
    Ok(())
}

#[test]
fn a_counter_and_a_gauge_of_one_name(rt: HostRuntime) -> Result<(), NoMemory> {
    let mut cache = Cache::new(rt.alloc());
    may_be_sent(&cache);
    let held = hold_two(&rt, rt.alloc(), &mut cache);
    drop(cache);
    held
}

fn drop_half(rt: &impl Abort, alloc: Global, cache: &mut Cache) -> Result<(), NoMemory> {
    hold_many(alloc, cache)?;
    assert_eq!(rt; cache.entries(), 1_000);
    cache.drop_released(&[ScopeId(1), ScopeId(3), ScopeId(5), ScopeId(7), ScopeId(9)]);
    assert_eq!(rt; cache.entries(), 500);
    assert_eq!(rt; count_held(cache), 500);
    hold_many(alloc, cache)?;
    assert_eq!(rt; count_held(cache), 1_000);
    Ok(())
}

// Five of ten scopes are dropped at once, and their entries are found anew.
#[test]
fn half_of_the_scopes_dropped(rt: HostRuntime) -> Result<(), NoMemory> {
    let mut cache = Cache::with_key(rt.alloc(), HashKey::of(7));
    let dropped = drop_half(&rt, rt.alloc(), &mut cache);
    drop(cache);
    dropped
}

// Holds a counter of this scope, and drops the scope. Gives how many entries the table has then.
fn hold_and_drop(alloc: Global, cache: &mut Cache, scope: u32) -> Result<u64, NoMemory> {
    let name = scope.to_le_bytes();
    hold(alloc, cache, &ask(Kind::Counter, &name), scope, scope)?;
    cache.drop_released(&[ScopeId(scope)]);
    Ok(cache.table_len())
}

/// As many entries of dropped scopes stay in a small table.
const FEW_STALE: u64 = 8;

fn drop_each(rt: &impl Abort, alloc: Global, cache: &mut Cache) -> Result<(), NoMemory> {
    hold(alloc, cache, &ask(Kind::Counter, b"stays"), 0, 0)?;
    for scope in 1..10_001_u32 {
        assert!(rt; hold_and_drop(alloc, cache, scope)? <= 1 + FEW_STALE);
    }
    assert_eq!(rt; cache.entries(), 1);
    Ok(())
}

// Entries of dropped scopes leave the table, and not only what is held.
#[test]
fn entries_of_10_000_scopes_go(rt: HostRuntime) -> Result<(), NoMemory> {
    let mut cache = Cache::new(rt.alloc());
    let dropped = drop_each(&rt, rt.alloc(), &mut cache);
    drop(cache);
    dropped
}

// The hash of one text under a key.
fn hash_under(key: HashKey) -> u64 {
    let mut hasher = key.build_hasher();
    hasher.write(b"http.requests");
    hasher.finish()
}

#[test]
fn the_key_of_the_hash_is_used(rt: HostRuntime) {
    let one = Cache::with_key(rt.alloc(), HashKey::of(7));
    let other = Cache::with_key(rt.alloc(), HashKey::of(8));
    assert_eq!(rt; hash_under(one.hash_key()), hash_under(HashKey::of(7)));
    assert!(rt; hash_under(one.hash_key()) != hash_under(other.hash_key()));
    drop(one);
    drop(other);
}
