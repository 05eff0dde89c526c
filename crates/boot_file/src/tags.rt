//! The tag rules in force.
ghost use Rattle.std.specs.Prelude.{◌≡◌, ◌≢◌, ◌<◌, ◌≤◌, ◌+◌, ◌^◌, codes, length, [], All, Option, Some, None, Ok, Err};
ghost use Rattle.std.specs.Prelude.{IsTrue, MatchResult, IfOk, option_map};
ghost use Rattle.std.specs.List.{list_all};
ghost use Rattle.serde_json.specs.View.{view, items_view};
ghost use Rattle.stat_defs.specs.Configs.{IsRule};
ghost use Rattle.stat_defs.specs.Names as names;
ghost use Rattle.stat_defs.specs.Names.{is_printable_byte, IsLocalName};
ghost use Rattle.boot_values.specs.Agrees.{Agrees};
ghost use Rattle.boot_file.specs.Lawful.{IsPlacedTag};
ghost use Rattle.boot_file.specs.Tags.{called, placed, defaults_where, is_local_name, is_regex_text, is_fixed_text};
ghost use Rattle.boot_file.specs.Tags.{tag_name_at, default_at, regex_at, fixed_at, rule_at, tag_at, tags_from};
ghost use Rattle.boot_file.specs.Tags.{tags_of};

use crate::default_tags::{DefaultTag, PlacedTag, called, placed};
use boot_values::{BootFault, Place, items_at, member, path_of, switch_at};
use serde_json::Value;
use stat_defs::{
    MAX_NAME_BYTES, MAX_PATTERN_BYTES, MAX_TAG_RULES, MAX_TAG_VALUE_BYTES, NoMemory, Rule, TagSpec,
    Txt, is_name_byte,
};
use std::alloc::Global;

/// Whether all bytes are printable and no spaces.
pub(crate) fn has_name_bytes(text: &[u8]) -> bool
    ensures { result ≡ list_all names.is_name_byte text.now }
{
    text.iter().all(|b| is_name_byte(*b))
}

/// Whether a text has 1 to 255 printable bytes without spaces.
pub(crate) fn is_local_name(text: &[u8]) -> bool
    ensures value { result ≡ is_local_name text.now }
    ensures lawful { IsTrue result → IsLocalName text.now }
{
    if text.is_empty() || text.len() > MAX_NAME_BYTES {
        return false;
    }
    has_name_bytes(text)
}

fn is_printable_byte(b: u8) -> bool
    ensures { result ≡ is_printable_byte b }
{
    b' ' <= b && b <= b'~'
}

fn has_printable_bytes(text: &[u8]) -> bool
    ensures { result ≡ list_all is_printable_byte text.now }
{
    text.iter().all(|b| is_printable_byte(*b))
}

fn is_fixed_text(text: &[u8]) -> bool
    ensures value { result ≡ is_fixed_text text.now }
    ensures lawful { IsTrue result → IsRule (Rule.Fixed text.now) }
{
    if text.len() > MAX_TAG_VALUE_BYTES {
        return false;
    }
    has_printable_bytes(text)
}

fn is_regex_text(text: &[u8]) -> bool
    ensures { result ≡ is_regex_text text.now }
{
    1 <= text.len() && text.len() <= MAX_PATTERN_BYTES
}

fn tag_name_at(alloc: Global, i: u32, found: Option<&Value>) -> Result<Txt, BootFault>
    ensures gives { Agrees result (tag_name_at i (option_map (λ v. view v.now) found.entry)) }
    ensures lawful { IfOk result (λ t. IsLocalName t) }
{
    let Some(value) = found else {
        return Err(BootFault::BadTag(i));
    };
    match value.as_str() {
        Some(text) if is_local_name(text.as_bytes()) => Ok(Txt::of(alloc, text.as_bytes())?),
        _ => Err(BootFault::BadTag(i)),
    }
}

fn default_at(alloc: Global, i: u32, found: Option<DefaultTag>) -> Result<PlacedTag, BootFault>
    ensures gives { Agrees result (default_at i found) }
    ensures lawful { IfOk result (λ t. IsPlacedTag t) }
{
    match found {
        None => Err(BootFault::BadTag(i)),
        Some(tag) => Ok(placed(alloc, tag)?),
    }
}

fn regex_at(alloc: Global, i: u32, tag_name: Txt, value: &Value) -> Result<PlacedTag, BootFault>
    requires { IsLocalName tag_name }
    ensures gives { Agrees result (regex_at i tag_name (view value.now)) }
    ensures lawful { IfOk result (λ t. IsPlacedTag t) }
{
    let Some(text) = value.as_str() else {
        return Err(BootFault::BadTag(i));
    };
    if !is_regex_text(text.as_bytes()) {
        return Err(BootFault::BadTag(i));
    }
    let regex = Txt::of(alloc, text.as_bytes())?;
    let path = path_of(alloc, Place::Tag(i as usize), ".regex")?;
    Ok(PlacedTag {
        spec: TagSpec {
            tag_name,
            rule: Rule::Regex(regex),
        },
        path,
    })
}

fn fixed_at(alloc: Global, i: u32, tag_name: Txt, value: &Value) -> Result<PlacedTag, BootFault>
    requires { IsLocalName tag_name }
    ensures gives { Agrees result (fixed_at i tag_name (view value.now)) }
    ensures lawful { IfOk result (λ t. IsPlacedTag t) }
{
    let Some(text) = value.as_str() else {
        return Err(BootFault::BadTag(i));
    };
    if !is_fixed_text(text.as_bytes()) {
        return Err(BootFault::BadTag(i));
    }
    let fixed = Txt::of(alloc, text.as_bytes())?;
    let path = Txt::of(alloc, b"")?;
    Ok(PlacedTag {
        spec: TagSpec {
            tag_name,
            rule: Rule::Fixed(fixed),
        },
        path,
    })
}

fn rule_at(
    alloc: Global,
    i: u32,
    tag_name: Txt,
    regex: Option<&Value>,
    fixed: Option<&Value>,
) -> Result<PlacedTag, BootFault>
    requires { IsLocalName tag_name }
    ensures gives { Agrees result (rule_at i tag_name
        (option_map (λ v. view v.now) regex.entry) (option_map (λ v. view v.now) fixed.entry)) }
    ensures lawful { IfOk result (λ t. IsPlacedTag t) }
{
    match regex {
        Some(regex) => match fixed {
            Some(_) => Err(BootFault::BadTag(i)),
            None => regex_at(alloc, i, tag_name, regex),
        },
        None => match fixed {
            Some(fixed) => fixed_at(alloc, i, tag_name, fixed),
            None => default_at(alloc, i, called(tag_name.bytes())),
        },
    }
}

#[tactic(auto, unfolding(crate::specs::Tags::tag_at))]
fn tag_at(alloc: Global, i: u32, value: &Value) -> Result<PlacedTag, BootFault>
    ensures gives { Agrees result (tag_at i (view value.now)) }
    ensures lawful { IfOk result (λ t. IsPlacedTag t) }
{
    let tag_name = tag_name_at(alloc, i, member(Some(value), "tag_name"))?;
    let regex = member(Some(value), "regex");
    let fixed = member(Some(value), "fixed_value");
    rule_at(alloc, i, tag_name, regex, fixed)
}

fn defaults_where(alloc: Global, all: bool) -> Result<Vec<PlacedTag>, NoMemory>
    ensures gives { IfOk result (λ v. v.items ≡ defaults_where all) }
    ensures lawful { IfOk result (λ v. All IsPlacedTag v.items) }
    ensures few { IfOk result (λ v. length v.items ≤ 4) }
{
    let mut found = Vec::new(alloc);
    if !all {
        return Ok(found);
    }
    found.push(placed(alloc, DefaultTag::ResponseCode)?)?;
    found.push(placed(alloc, DefaultTag::ResponseCodeClass)?)?;
    found.push(placed(alloc, DefaultTag::ClusterName)?)?;
    found.push(placed(alloc, DefaultTag::ConnManagerPrefix)?)?;
    Ok(found)
}

/// The rules of a list, behind those that were found.
fn tags_in(
    alloc: Global,
    first: Vec<PlacedTag>,
    list: &[Value],
) -> Result<Vec<PlacedTag>, BootFault>
    requires few { length list.now ≤ MAX_TAG_RULES }
    requires lawful { All IsPlacedTag first.items }
    ensures gives { MatchResult result (λ v. tags_from 0 first.items (items_view list.now) ≡ Ok v.items)
        (λ f. f ≢ BootFault.NoMemory → tags_from 0 first.items (items_view list.now) ≡ Err f) }
    ensures lawful { IfOk result (λ v. All IsPlacedTag v.items) }
    ensures few { IfOk result (λ v. length v.items ≤ length first.items + length list.now) }
{
    let mut found = first;
    for (i, value) in list.iter().enumerate() {
        let tag = tag_at(alloc, i as u32, value)?;
        found.push(tag)?;
    }
    Ok(found)
}

/// The rules in force: the default ones, unless they are turned off, and then those of `stats_tags`.
#[tactic(auto, unfolding(crate::specs::Tags::tags_of))]
pub(crate) fn tags_of(alloc: Global, section: Option<&Value>) -> Result<Vec<PlacedTag>, BootFault>
    ensures gives { MatchResult result
        (λ v. tags_of (option_map (λ v. view v.now) section.entry) ≡ Ok v.items)
        (λ f. f ≢ BootFault.NoMemory → tags_of (option_map (λ v. view v.now) section.entry) ≡ Err f) }
    ensures lawful { IfOk result (λ v. All IsPlacedTag v.items) }
    ensures few { IfOk result (λ v. length v.items ≤ MAX_TAG_RULES + 4) }
{
    let switch = member(section, "use_all_default_tags");
    let all = switch_at(alloc, "stats_config.use_all_default_tags", switch)?;
    let list = member(section, "stats_tags");
    let list = items_at(alloc, "stats_config.stats_tags", MAX_TAG_RULES, list)?;
    let defaults = defaults_where(alloc, all)?;
    tags_in(alloc, defaults, list)
}
