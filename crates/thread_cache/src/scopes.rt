//! The scopes that entries of the table have.
ghost use Rattle.std.specs.Prelude.{◌≡◌, ◌<◌, ◌≤◌, ◌+◌, ◌||◌, ◌&&◌, ◌==◌, not, true, false, Bool, if◌then◌else◌};
ghost use Rattle.std.specs.Prelude.{slice_get, Some};
ghost use Rattle.std.specs.List.{list_any};
ghost use Rattle.indexmap.specs.IndexMap.{spare};
ghost use Rattle.thread_cache.specs.Scopes.{is_live, is_listed, IsStanding};
ghost use Rattle.thread_cache.specs.declared.scopes.ScopeEntries.{ScopeEntries};

use indexmap::IndexMap;
use name_map::keys_differ;
use stat_defs::ScopeId;

/// Maximum number of listed scopes that are looked through for the least live one.
const FEW_SCOPES: usize = 8;

const _: () = prove!(FEW_SCOPES == 8);

/// A scope that entries of the table have: whether it was dropped, and about how many entries have it.
#[derive(Clone, Copy)]
pub(crate) struct ScopeEntries {
    pub(crate) dropped: bool,
    pub(crate) count: u64,
}

/// The scopes of all entries of the table.
pub(crate) type Scopes = IndexMap<ScopeId, ScopeEntries>;

// Whether the scope is listed and was not dropped.
pub(crate) fn is_live(scopes: &Scopes, scope: ScopeId) -> bool
    ensures { result ≡ is_live scopes.now.entries scope }
{
    match scopes.get(&scope) {
        Some(entries) => !entries.dropped,
        None => false,
    }
}

/// How a scope stands before an entry of it is counted.
pub(crate) enum Standing {
    Live,
    Dropped,
    Unlisted,
}

// Counts one entry more of a scope that is live.
pub(crate) fn count_entry(scopes: &mut Scopes, scope: ScopeId) -> Standing
    ensures standing { IsStanding scopes.old.entries scope result }
    ensures live { (s : ScopeId) → is_live scopes.new.entries s ≡ is_live scopes.old.entries s }
    ensures listed { (s : ScopeId) → is_listed scopes.new.entries s ≡ is_listed scopes.old.entries s }
    ensures spare { spare scopes.new ≡ spare scopes.old }
{
    match scopes.get_mut(&scope) {
        None => Standing::Unlisted,
        Some(entries) => {
            if entries.dropped {
                return Standing::Dropped;
            }
            entries.count = entries.count.saturating_add(1);
            Standing::Live
        }
    }
}

// Lists a scope that is not listed, with one entry.
pub(crate) fn list_scope(scopes: &mut Scopes, scope: ScopeId)
    requires room { 0 < spare scopes.old }
    ensures live { (s : ScopeId) → is_live scopes.new.entries s ≡ (scope.0 == s.0 || is_live scopes.old.entries s) }
    ensures listed { (s : ScopeId) → is_listed scopes.new.entries s
        ≡ (scope.0 == s.0 || is_listed scopes.old.entries s) }
{
    let entries = ScopeEntries {
        dropped: false,
        count: 1,
    };
    let _ = scopes.insert(scope, entries);
}

// Drops the scope, and answers about how many entries have it: 0 only where it was not live.
pub(crate) fn drop_scope(scopes: &mut Scopes, scope: ScopeId) -> u64
    ensures live { (s : ScopeId) → is_live scopes.new.entries s
        ≡ (not (scope.0 == s.0) && is_live scopes.old.entries s) }
    ensures listed { (s : ScopeId) → is_listed scopes.new.entries s ≡ is_listed scopes.old.entries s }
    ensures idle { result ≡ 0 → (s : ScopeId) → is_live scopes.new.entries s ≡ is_live scopes.old.entries s }
    ensures spare { spare scopes.old ≤ spare scopes.new }
{
    let Some(entries) = scopes.get_mut(&scope) else {
        return 0;
    };
    if entries.dropped {
        return 0;
    }
    entries.dropped = true;
    entries.count.max(1)
}

// The number of a scope that is listed at that place and live, or the greatest number.
fn live_number_at(scopes: &Scopes, at: usize) -> u32
    ensures { (e : ScopeId × ScopeEntries) → slice_get scopes.now.entries at ≡ Some e → e.1.dropped ≡ false
        → result ≡ e.0.0 }
{
    match scopes.get_index(at) {
        Some((scope, entries)) if !entries.dropped => scope.0,
        _ => u32::MAX,
    }
}

// A number that no live scope is below: the least of theirs where few scopes are listed, else 0.
fn least_live(scopes: &Scopes) -> u32
    ensures { (s : ScopeId) → is_live scopes.now.entries s ≡ true → result ≤ s.0 }
{
    if scopes.len() > FEW_SCOPES {
        return 0;
    }
    let mut least = u32::MAX;
    for at in 0..scopes.len() {
        least = least.min(live_number_at(scopes, at));
    }
    least
}

// Drops these scopes, and answers how stale the table is then. A seat that waited long hears of many scopes that were
// opened and released meanwhile. Those below all that are live are not looked up.
pub(crate) fn drop_scopes(scopes: &mut Scopes, released: &[ScopeId], stale: u64) -> u64
    ensures live { (s : ScopeId) → is_live scopes.new.entries s ≡ (not (list_any
        (λ r. r.0 == s.0) released.now) && is_live scopes.old.entries s) }
    ensures listed { (s : ScopeId) → is_listed scopes.new.entries s ≡ is_listed scopes.old.entries s }
    ensures idle { result ≡ 0 → (stale ≡ 0)
        × ((s : ScopeId) → is_live scopes.new.entries s ≡ is_live scopes.old.entries s) }
    ensures spare { spare scopes.old ≤ spare scopes.new }
{
    let mut total = stale;
    let mut least = least_live(scopes);
    for scope in released {
        if scope.0 >= least {
            let entries = drop_scope(scopes, *scope);
            if entries > 0 {
                total = total.saturating_add(entries);
                least = least_live(scopes);
            }
        }
    }
    total
}

// Takes the dropped scopes out.
pub(crate) fn forget_dropped(scopes: &mut Scopes)
    ensures live { (s : ScopeId) → is_live scopes.new.entries s ≡ is_live scopes.old.entries s }
    ensures listed { (s : ScopeId) → is_listed scopes.new.entries s ≡ is_live scopes.old.entries s }
    ensures spare { spare scopes.old ≤ spare scopes.new }
{
    keys_differ(scopes);
    scopes.retain(
        |_scope: &ScopeId, entries: &mut ScopeEntries| -> bool
            ensures { (result ≡ not entries.old.dropped) × (entries.new ≡ entries.old) }
        { !entries.dropped },
    );
}
