//! Which names are admitted.
ghost use Rattle.std.specs.Prelude.{◌≡◌, ◌≢◌, ◌<◌, ◌≤◌, ◌^◌, codes, length, [], All, Option, Some, None, Ok, Err};
ghost use Rattle.std.specs.Prelude.{MatchResult, IfOk, option_map};
ghost use Rattle.serde_json.specs.View.{view, items_view};
ghost use Rattle.stat_defs.specs.Configs.{IsPatternText, IsMatchSpec, IsPatternList, text_of};
ghost use Rattle.boot_values.specs.Agrees.{Agrees};
ghost use Rattle.boot_values.specs.StatsMatcher.{choice_of, reject_at, name_of, path_of_side, path_of_patterns};
ghost use Rattle.boot_values.specs.StatsMatcher.{place_in, spec_of, patterns_from, list_at, matcher_of};

use crate::fault::BootFault;
use crate::json::{has, items_at, member, section_at};
use crate::patterns::pattern_at;
use crate::place::{Place, bad_key};
use serde_json::Value;
use stat_defs::{List, MAX_PATTERNS, MatchSpec, Pattern};
use std::alloc::Global;

/// What a list of patterns does with the names that it matches.
#[derive(Clone, Copy, Debug, PartialEq, Eq)]
pub(crate) enum Side {
    Exclusion,
    Inclusion,
}

/// The member that stands alone in a matcher.
#[derive(Clone, Copy, Debug, PartialEq, Eq)]
pub(crate) enum Choice {
    RejectAll,
    Listed(Side),
}

fn choice_of(reject_all: bool, exclusion: bool, inclusion: bool) -> Option<Choice>
    ensures { result ≡ choice_of reject_all exclusion inclusion }
{
    match (reject_all, exclusion, inclusion) {
        (true, false, false) => Some(Choice::RejectAll),
        (false, true, false) => Some(Choice::Listed(Side::Exclusion)),
        (false, false, true) => Some(Choice::Listed(Side::Inclusion)),
        _ => None,
    }
}

fn reject_at(alloc: Global, found: Option<&Value>) -> Result<MatchSpec, BootFault>
    ensures gives { Agrees result (reject_at (option_map (λ v. view v.now) found.entry)) }
    ensures lawful { IfOk result (λ m. IsMatchSpec m) }
{
    let Some(value) = found else {
        return Err(bad_key(alloc, "stats_config.stats_matcher.reject_all"));
    };
    match value.as_bool() {
        Some(true) => Ok(MatchSpec::RejectAll),
        Some(false) => Ok(MatchSpec::AdmitAll),
        None => Err(bad_key(alloc, "stats_config.stats_matcher.reject_all")),
    }
}

fn name_of(side: Side) -> &'static str
    ensures { result.now ≡ name_of side }
{
    match side {
        Side::Exclusion => "exclusion_list",
        Side::Inclusion => "inclusion_list",
    }
}

fn path_of_side(side: Side) -> &'static str
    ensures { result.now ≡ path_of_side side }
{
    match side {
        Side::Exclusion => "stats_config.stats_matcher.exclusion_list",
        Side::Inclusion => "stats_config.stats_matcher.inclusion_list",
    }
}

fn path_of_patterns(side: Side) -> &'static str
    ensures { result.now ≡ path_of_patterns side }
{
    match side {
        Side::Exclusion => "stats_config.stats_matcher.exclusion_list.patterns",
        Side::Inclusion => "stats_config.stats_matcher.inclusion_list.patterns",
    }
}

fn place_in(side: Side, i: usize) -> Place
    ensures { result ≡ place_in side i }
{
    match side {
        Side::Exclusion => Place::Excluded(i),
        Side::Inclusion => Place::Included(i),
    }
}

fn spec_of(side: Side, patterns: Vec<Pattern>) -> MatchSpec
    ensures { result ≡ spec_of side patterns.items }
{
    let patterns = List::of(patterns);
    match side {
        Side::Exclusion => MatchSpec::Exclude(patterns),
        Side::Inclusion => MatchSpec::Include(patterns),
    }
}

fn patterns_in(alloc: Global, side: Side, list: &[Value]) -> Result<Vec<Pattern>, BootFault>
    ensures gives { MatchResult result (λ v. patterns_from side 0 [] (items_view list.now) ≡ Ok v.items)
        (λ f. f ≢ BootFault.NoMemory → patterns_from side 0 [] (items_view list.now) ≡ Err f) }
    ensures lawful { IfOk result (λ v. All (λ p. IsPatternText (text_of p)) v.items) }
    ensures few { IfOk result (λ v. length v.items ≤ length list.now) }
{
    let mut found = Vec::new(alloc);
    for (i, value) in list.iter().enumerate() {
        let pattern = pattern_at(alloc, place_in(side, i), value)?;
        found.push(pattern)?;
    }
    Ok(found)
}

#[tactic(auto, unfolding(crate::specs::StatsMatcher::list_at))]
fn list_at(alloc: Global, side: Side, found: Option<&Value>) -> Result<MatchSpec, BootFault>
    ensures gives { Agrees result (list_at side (option_map (λ v. view v.now) found.entry)) }
    ensures lawful { IfOk result (λ m. IsMatchSpec m) }
{
    let section = section_at(alloc, path_of_side(side), found)?;
    let list = member(section, "patterns");
    let list = items_at(alloc, path_of_patterns(side), MAX_PATTERNS, list)?;
    let patterns = patterns_in(alloc, side, list)?;
    Ok(spec_of(side, patterns))
}

/// The matcher that a `stats_matcher` says; where it is absent all names are admitted. The first fault is told,
/// `BadKey` or `OutOfRange` with its path below `stats_config.stats_matcher`, or `NoMemory`. No pattern is built.
#[tactic(auto, unfolding(crate::specs::StatsMatcher::matcher_of))]
pub fn matcher_of(alloc: Global, found: Option<&Value>) -> Result<MatchSpec, BootFault>
    ensures gives { Agrees result (matcher_of (option_map (λ v. view v.now) found.entry)) }
    ensures lawful { IfOk result (λ m. IsMatchSpec m) }
{
    let Some(value) = found else {
        return Ok(MatchSpec::AdmitAll);
    };
    let reject_all = has(value, "reject_all");
    let exclusion = has(value, "exclusion_list");
    let inclusion = has(value, "inclusion_list");
    match choice_of(reject_all, exclusion, inclusion) {
        None => Err(bad_key(alloc, "stats_config.stats_matcher")),
        Some(Choice::RejectAll) => reject_at(alloc, member(Some(value), "reject_all")),
        Some(Choice::Listed(side)) => list_at(alloc, side, member(Some(value), name_of(side))),
    }
}
