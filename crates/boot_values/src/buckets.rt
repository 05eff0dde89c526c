//! The bounds of histograms.
ghost use Rattle.std.specs.Prelude.{◌≡◌, ◌≢◌, ◌<◌, ◌≤◌, ◌+◌, ◌*◌, ◌^◌, ◌==◌, nat_lt, codes, length, map, [], All};
ghost use Rattle.std.specs.Prelude.{Option, Some, None, Ok, Err, false, MatchResult, IfOk, option_map};
ghost use Rattle.std.specs.List.{list_any, count_by};
ghost use Rattle.std.specs.List.Sorted.{IsStrictlyIncreasing};
ghost use Rattle.serde_json.specs.View.{view, items_view};
ghost use Rattle.stat_defs.specs.Configs.{IsPatternText, IsBucketSpec, IsWholeBound, text_of};
ghost use Rattle.boot_values.specs.Agrees.{Agrees};
ghost use Rattle.boot_values.specs.BucketSettings.{natural_of, bound_of, with_bound, bounds_from, bounds_of, match_at};
ghost use Rattle.boot_values.specs.BucketSettings.{setting_at, settings_from, settings_of};

use crate::fault::BootFault;
use crate::json::{items_at, member};
use crate::patterns::pattern_at;
use crate::place::{Place, bad_bucket, bad_part};
use serde_json::Value;
use stat_defs::{Bound, BucketSpec, List, MAX_BOUND, MAX_BOUNDS, MAX_BUCKET_SETTINGS, Pattern};
use std::alloc::Global;

fn is_taken(found: &[Bound], halves: u64) -> bool
    ensures { result ≡ list_any (λ b. b.halves == halves) found.now }
{
    found.iter().any(|b| b.halves == halves)
}

fn count_below(found: &[Bound], halves: u64) -> usize
    ensures { result ≡ count_by (λ b. nat_lt b.halves halves) found.now }
{
    found.iter().filter(|b| b.halves < halves).count()
}

#[tactic(auto, using(crate::proofs::Facts::natural_of_number))]
fn natural_of(value: &Value) -> Option<u64>
    ensures { result ≡ natural_of (view value.now) }
{
    value.as_u64()
}

fn bound_of(
    alloc: Global,
    i: usize,
    found: &[Bound],
    number: Option<u64>,
) -> Result<Bound, BootFault>
    ensures gives { Agrees result (bound_of i found.now number) }
    ensures whole { IfOk result (λ b. IsWholeBound b) }
    ensures new { IfOk result (λ b. list_any (λ c. c.halves == b.halves) found.now ≡ false) }
{
    let Some(n) = number else {
        return Err(bad_bucket(alloc, i));
    };
    if n < 1 || n > MAX_BOUND || is_taken(found, 2 * n) {
        return Err(bad_bucket(alloc, i));
    }
    Ok(Bound { halves: 2 * n })
}

fn bounds_in(alloc: Global, i: usize, list: &[Value]) -> Result<Vec<Bound>, BootFault>
    ensures gives { MatchResult result (λ v. bounds_from i [] (items_view list.now) ≡ Ok v.items)
        (λ f. f ≢ BootFault.NoMemory → bounds_from i [] (items_view list.now) ≡ Err f) }
    ensures whole { IfOk result (λ v. All IsWholeBound v.items) }
    ensures rising { IfOk result (λ v. IsStrictlyIncreasing (map (λ b. b.halves) v.items)) }
    ensures as_many { IfOk result (λ v. length v.items ≡ length list.now) }
{
    let mut found = Vec::new(alloc);
    for value in list.iter() {
        let bound = bound_of(alloc, i, &found, natural_of(value))?;
        let below = count_below(&found, bound.halves);
        found.insert(below, bound)?;
    }
    Ok(found)
}

#[tactic(auto, unfolding(crate::specs::BucketSettings::bounds_of), using(crate::proofs::Facts::item_count_of_view))]
fn bounds_of(alloc: Global, i: usize, found: Option<&Value>) -> Result<Vec<Bound>, BootFault>
    ensures gives { MatchResult result (λ v. bounds_of i (option_map (λ v. view v.now) found.entry) ≡ Ok v.items)
        (λ f. f ≢ BootFault.NoMemory → bounds_of i (option_map (λ v. view v.now) found.entry) ≡ Err f) }
    ensures whole { IfOk result (λ v. All IsWholeBound v.items) }
    ensures rising { IfOk result (λ v. IsStrictlyIncreasing (map (λ b. b.halves) v.items)) }
    ensures some { IfOk result (λ v. 1 ≤ length v.items) }
    ensures few { IfOk result (λ v. length v.items ≤ MAX_BOUNDS) }
{
    let Some(value) = found else {
        return Err(bad_bucket(alloc, i));
    };
    let Some(list) = value.as_array() else {
        return Err(bad_bucket(alloc, i));
    };
    if list.len() < 1 {
        return Err(bad_bucket(alloc, i));
    }
    if list.len() > MAX_BOUNDS {
        return Err(bad_bucket(alloc, i));
    }
    bounds_in(alloc, i, list)
}

fn match_at(alloc: Global, i: usize, found: Option<&Value>) -> Result<Pattern, BootFault>
    ensures gives { Agrees result (match_at i (option_map (λ v. view v.now) found.entry)) }
    ensures lawful { IfOk result (λ p. IsPatternText (text_of p)) }
{
    let Some(value) = found else {
        return Err(bad_part(alloc, Place::Setting(i), ""));
    };
    pattern_at(alloc, Place::Match(i), value)
}

#[tactic(auto, unfolding(crate::specs::BucketSettings::setting_at))]
fn setting_at(alloc: Global, i: usize, value: &Value) -> Result<BucketSpec, BootFault>
    ensures gives { Agrees result (setting_at i (view value.now)) }
    ensures lawful { IfOk result (λ s. IsBucketSpec s) }
{
    let pattern = match_at(alloc, i, member(Some(value), "match"))?;
    let bounds = bounds_of(alloc, i, member(Some(value), "buckets"))?;
    Ok(BucketSpec {
        pattern,
        bounds: List::of(bounds),
    })
}

fn settings_in(alloc: Global, list: &[Value]) -> Result<Vec<BucketSpec>, BootFault>
    ensures gives { MatchResult result (λ v. settings_from 0 [] (items_view list.now) ≡ Ok v.items)
        (λ f. f ≢ BootFault.NoMemory → settings_from 0 [] (items_view list.now) ≡ Err f) }
    ensures lawful { IfOk result (λ v. All IsBucketSpec v.items) }
    ensures few { IfOk result (λ v. length v.items ≤ length list.now) }
{
    let mut found = Vec::new(alloc);
    for (i, value) in list.iter().enumerate() {
        let setting = setting_at(alloc, i, value)?;
        found.push(setting)?;
    }
    Ok(found)
}

/// The bucket settings that a `histogram_bucket_settings` says, in its order, where absent is none; the bounds of each
/// rise. The first fault is told, `BadKey`, `BadBucket` or `OutOfRange` with its path below
/// `stats_config.histogram_bucket_settings`, or `NoMemory`. No pattern is built.
#[tactic(auto, unfolding(crate::specs::BucketSettings::settings_of))]
pub fn settings_of(alloc: Global, found: Option<&Value>) -> Result<List<BucketSpec>, BootFault>
    ensures gives { Agrees result (settings_of (option_map (λ v. view v.now) found.entry)) }
    ensures lawful { IfOk result (λ l. All IsBucketSpec l) }
    ensures few { IfOk result (λ l. length l ≤ MAX_BUCKET_SETTINGS) }
{
    let path = "stats_config.histogram_bucket_settings";
    let list = items_at(alloc, path, MAX_BUCKET_SETTINGS, found)?;
    let settings = settings_in(alloc, list)?;
    Ok(List::of(settings))
}
