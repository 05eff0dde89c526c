//! The prefix of StatsD lines.
ghost use Rattle.std.specs.Prelude.{◌≡◌, ◌≢◌, ◌<◌, ◌≤◌, ◌^◌, codes, length, [], Option, Some, None, Ok, Err};
ghost use Rattle.std.specs.Prelude.{MatchResult, IfOk, option_map};
ghost use Rattle.serde_json.specs.View.{view, items_view};
ghost use Rattle.stat_defs.specs.Names.{IsLocalName};
ghost use Rattle.boot_values.specs.Agrees.{Agrees};
ghost use Rattle.boot_file.specs.Sinks.{is_statsd, typed_config_at, prefix_text_at, prefix_at, sink_at, prefix_from};
ghost use Rattle.boot_file.specs.Sinks.{prefix_of};

use crate::tags::is_local_name;
use boot_values::{BootFault, Place, bad_key, bad_part, is_section, member};
use serde_json::Value;
use stat_defs::{NoMemory, Txt};
use std::alloc::Global;

fn is_statsd(found: Option<&Value>) -> bool
    ensures { result ≡ is_statsd (option_map (λ v. view v.now) found.entry) }
{
    let Some(value) = found else {
        return false;
    };
    let Some(name) = value.as_str() else {
        return false;
    };
    name.as_bytes() == b"envoy.stat_sinks.statsd".as_slice()
}

fn usual_prefix(alloc: Global) -> Result<Txt, NoMemory>
    ensures gives { IfOk result (λ t. t ≡ codes "envoy") }
    ensures lawful { IfOk result (λ t. IsLocalName t) }
{
    Txt::of(alloc, b"envoy")
}

fn typed_config_at<'v>(
    alloc: Global,
    i: usize,
    found: Option<&'v Value>,
) -> Result<Option<&'v Value>, BootFault>
    ensures { MatchResult result
        (λ o. typed_config_at i (option_map (λ v. view v.now) found.entry) ≡ Ok (option_map (λ v. view v.now) o))
        (λ f. f ≢ BootFault.NoMemory → typed_config_at i (option_map (λ v. view v.now) found.entry) ≡ Err f) }
{
    if is_section(found) {
        Ok(found)
    } else {
        Err(bad_part(alloc, Place::Sink(i), ".typed_config"))
    }
}

fn prefix_text_at(alloc: Global, i: usize, text: &[u8]) -> Result<Txt, BootFault>
    ensures gives { Agrees result (prefix_text_at i text.now) }
    ensures lawful { IfOk result (λ t. IsLocalName t) }
{
    if text.is_empty() {
        return Ok(usual_prefix(alloc)?);
    }
    if !is_local_name(text) {
        return Err(bad_part(alloc, Place::Sink(i), ".typed_config.prefix"));
    }
    Ok(Txt::of(alloc, text)?)
}

fn prefix_at(alloc: Global, i: usize, found: Option<&Value>) -> Result<Txt, BootFault>
    ensures gives { Agrees result (prefix_at i (option_map (λ v. view v.now) found.entry)) }
    ensures lawful { IfOk result (λ t. IsLocalName t) }
{
    let Some(value) = found else {
        return Ok(usual_prefix(alloc)?);
    };
    let Some(text) = value.as_str() else {
        return Err(bad_part(alloc, Place::Sink(i), ".typed_config.prefix"));
    };
    prefix_text_at(alloc, i, text.as_bytes())
}

#[tactic(auto, unfolding(crate::specs::Sinks::sink_at))]
fn sink_at(alloc: Global, i: usize, value: &Value) -> Result<Txt, BootFault>
    ensures gives { Agrees result (sink_at i (view value.now)) }
    ensures lawful { IfOk result (λ t. IsLocalName t) }
{
    let config = typed_config_at(alloc, i, member(Some(value), "typed_config"))?;
    prefix_at(alloc, i, member(config, "prefix"))
}

fn prefix_in(alloc: Global, list: &[Value]) -> Result<Txt, BootFault>
    ensures gives { Agrees result (prefix_from 0 (items_view list.now)) }
    ensures lawful { IfOk result (λ t. IsLocalName t) }
{
    for (i, value) in list.iter().enumerate() {
        if is_statsd(member(Some(value), "name")) {
            return sink_at(alloc, i, value);
        }
    }
    Ok(usual_prefix(alloc)?)
}

/// The prefix of the first StatsD sink.
#[tactic(auto, unfolding(crate::specs::Sinks::prefix_of))]
pub(crate) fn prefix_of(alloc: Global, found: Option<&Value>) -> Result<Txt, BootFault>
    ensures gives { Agrees result (prefix_of (option_map (λ v. view v.now) found.entry)) }
    ensures lawful { IfOk result (λ t. IsLocalName t) }
{
    let Some(value) = found else {
        return Ok(usual_prefix(alloc)?);
    };
    let Some(list) = value.as_array() else {
        return Err(bad_key(alloc, "stats_sinks"));
    };
    prefix_in(alloc, list)
}
