//! Patterns over names.
ghost use Rattle.std.specs.Prelude.{◌≡◌, ◌≢◌, ◌<◌, ◌≤◌, ◌^◌, codes, length, [], Option, Some, None, Ok, Err, IfOk};
ghost use Rattle.std.specs.Prelude.{option_map};
ghost use Rattle.serde_json.specs.View.{view};
ghost use Rattle.stat_defs.specs.Configs.{IsPatternText, text_of};
ghost use Rattle.boot_values.specs.Agrees.{Agrees};
ghost use Rattle.boot_values.specs.Patterns.{only_of, shape_of, text_at, regex_text_at, shaped_at, is_case_kept};
ghost use Rattle.boot_values.specs.Patterns.{pattern_at};

use crate::fault::BootFault;
use crate::json::{has, member};
use crate::place::{Place, bad_part, long_part};
use serde_json::Value;
use stat_defs::{MAX_PATTERN_BYTES, Pattern, Txt};
use std::alloc::Global;

/// The member that says how a pattern matches.
#[derive(Clone, Copy, Debug, PartialEq, Eq)]
pub(crate) enum Shape {
    Exact,
    Prefix,
    Suffix,
    Contains,
    SafeRegex,
}

fn only_of(
    exact: bool,
    prefix: bool,
    suffix: bool,
    contains: bool,
    safe_regex: bool,
) -> Option<Shape>
    ensures { result ≡ only_of exact prefix suffix contains safe_regex }
{
    match (exact, prefix, suffix, contains, safe_regex) {
        (true, false, false, false, false) => Some(Shape::Exact),
        (false, true, false, false, false) => Some(Shape::Prefix),
        (false, false, true, false, false) => Some(Shape::Suffix),
        (false, false, false, true, false) => Some(Shape::Contains),
        (false, false, false, false, true) => Some(Shape::SafeRegex),
        _ => None,
    }
}

#[tactic(auto, unfolding(crate::specs::Patterns::shape_of))]
fn shape_of(value: &Value) -> Option<Shape>
    ensures { result ≡ shape_of (view value.now) }
{
    let exact = has(value, "exact");
    let prefix = has(value, "prefix");
    let suffix = has(value, "suffix");
    let contains = has(value, "contains");
    let safe_regex = has(value, "safe_regex");
    only_of(exact, prefix, suffix, contains, safe_regex)
}

fn text_at(alloc: Global, place: Place, part: &str, found: Option<&Value>) -> Result<Txt, BootFault>
    ensures gives { Agrees result (text_at place part.now (option_map (λ v. view v.now) found.entry)) }
    ensures lawful { IfOk result (λ t. IsPatternText t) }
{
    let Some(value) = found else {
        return Err(bad_part(alloc, place, part));
    };
    let Some(text) = value.as_str() else {
        return Err(bad_part(alloc, place, part));
    };
    if text.len() > MAX_PATTERN_BYTES {
        return Err(long_part(alloc, place, part));
    }
    Ok(Txt::of(alloc, text.as_bytes())?)
}

fn regex_text_at(alloc: Global, place: Place, found: Option<&Value>) -> Result<Txt, BootFault>
    ensures gives { Agrees result (regex_text_at place (option_map (λ v. view v.now) found.entry)) }
    ensures lawful { IfOk result (λ t. IsPatternText t) }
{
    let Some(regex) = found else {
        return Err(bad_part(alloc, place, ".safe_regex"));
    };
    text_at(alloc, place, ".safe_regex.regex", Some(regex))
}

#[tactic(auto, unfolding(crate::specs::Patterns::shaped_at))]
fn shaped_at(alloc: Global, place: Place, value: &Value, shape: Shape) -> Result<Pattern, BootFault>
    ensures gives { Agrees result (shaped_at place (view value.now) shape) }
    ensures lawful { IfOk result (λ p. IsPatternText (text_of p)) }
{
    match shape {
        Shape::Exact => {
            let text = text_at(alloc, place, ".exact", member(Some(value), "exact"))?;
            Ok(Pattern::Exact(text))
        }
        Shape::Prefix => {
            let text = text_at(alloc, place, ".prefix", member(Some(value), "prefix"))?;
            Ok(Pattern::Prefix(text))
        }
        Shape::Suffix => {
            let text = text_at(alloc, place, ".suffix", member(Some(value), "suffix"))?;
            Ok(Pattern::Suffix(text))
        }
        Shape::Contains => {
            let text = text_at(alloc, place, ".contains", member(Some(value), "contains"))?;
            Ok(Pattern::Contains(text))
        }
        Shape::SafeRegex => {
            let regex = member(member(Some(value), "safe_regex"), "regex");
            Ok(Pattern::SafeRegex(regex_text_at(alloc, place, regex)?))
        }
    }
}

fn is_case_kept(found: Option<&Value>) -> bool
    ensures { result ≡ is_case_kept (option_map (λ v. view v.now) found.entry) }
{
    let Some(value) = found else {
        return true;
    };
    match value.as_bool() {
        Some(ignored) => !ignored,
        None => false,
    }
}

/// The pattern at a place.
#[tactic(auto, unfolding(crate::specs::Patterns::pattern_at))]
pub(crate) fn pattern_at(alloc: Global, place: Place, value: &Value) -> Result<Pattern, BootFault>
    ensures gives { Agrees result (pattern_at place (view value.now)) }
    ensures lawful { IfOk result (λ p. IsPatternText (text_of p)) }
{
    let Some(shape) = shape_of(value) else {
        return Err(bad_part(alloc, place, ""));
    };
    let pattern = shaped_at(alloc, place, value, shape)?;
    if !is_case_kept(member(Some(value), "ignore_case")) {
        return Err(bad_part(alloc, place, ".ignore_case"));
    }
    Ok(pattern)
}
