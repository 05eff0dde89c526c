//! The scopes that are open from the start.
ghost use Rattle.std.specs.Prelude.{◌≡◌, ◌==◌, ◌≢◌, ◌<◌, ◌≤◌, ◌+◌, ◌^◌, ◌++◌, codes, [], ◌∷◌, length, Option, Some};
ghost use Rattle.std.specs.Prelude.{None, Ok, Err, false, IsTrue, MatchResult, IfOk, option_map};
ghost use Rattle.std.specs.List.{list_all};
ghost use Rattle.serde_json.specs.View.{view, items_view};
ghost use Rattle.stat_defs.specs.Configs.{IsScopeSpec, AreScopes};
ghost use Rattle.stat_defs.specs.Names as names;
ghost use Rattle.stat_defs.specs.Names.{IsLabel, IsScopePrefix};
ghost use Rattle.boot_values.specs.Agrees.{Agrees};
ghost use Rattle.boot_file.specs.Scopes.{is_label, is_scope_prefix, is_taken, label_at, prefix_at, scope_at, root};
ghost use Rattle.boot_file.specs.Scopes.{scopes_from, scopes_of};

use crate::tags::has_name_bytes;
use boot_values::{BootFault, Place, bad_part, items_at, member};
use serde_json::Value;
use stat_defs::{
    List, MAX_LABEL_BYTES, MAX_NAME_BYTES, MAX_SCOPES, NoMemory, ScopeSpec, Txt, is_label_byte,
    without_dot,
};
use std::alloc::Global;

fn has_label_bytes(text: &[u8]) -> bool
    ensures { result ≡ list_all names.is_label_byte text.now }
{
    text.iter().all(|b| is_label_byte(*b))
}

fn is_label(text: &[u8]) -> bool
    ensures value { result ≡ is_label text.now }
    ensures lawful { IsTrue result → IsLabel text.now }
{
    if text.is_empty() || text.len() > MAX_LABEL_BYTES {
        return false;
    }
    has_label_bytes(text)
}

fn is_scope_prefix(text: &[u8]) -> bool
    ensures value { result ≡ is_scope_prefix text.now }
    ensures lawful { IsTrue result → IsScopePrefix text.now }
{
    if text.len() > MAX_NAME_BYTES {
        return false;
    }
    has_name_bytes(text)
}

fn is_taken(found: &[ScopeSpec], label: &[u8]) -> bool
    ensures { result ≡ is_taken found.now label.now }
{
    found.iter().any(|s| s.label.bytes() == label)
}

fn label_at(
    alloc: Global,
    found: &[ScopeSpec],
    i: usize,
    value: Option<&Value>,
) -> Result<Txt, BootFault>
    ensures gives { Agrees result (label_at found.now i (option_map (λ v. view v.now) value.entry)) }
    ensures lawful { IfOk result (λ t. IsLabel t) }
    ensures new { IfOk result (λ t. is_taken found.now t ≡ false) }
{
    let Some(value) = value else {
        return Err(bad_part(alloc, Place::Scope(i), ""));
    };
    let Some(text) = value.as_str() else {
        return Err(bad_part(alloc, Place::Scope(i), ".label"));
    };
    if !is_label(text.as_bytes()) || is_taken(found, text.as_bytes()) {
        return Err(bad_part(alloc, Place::Scope(i), ".label"));
    }
    Ok(Txt::of(alloc, text.as_bytes())?)
}

fn prefix_at(alloc: Global, i: usize, value: Option<&Value>) -> Result<Txt, BootFault>
    ensures gives { Agrees result (prefix_at i (option_map (λ v. view v.now) value.entry)) }
    ensures lawful { IfOk result (λ t. IsScopePrefix t) }
{
    let Some(value) = value else {
        return Ok(Txt::of(alloc, b"")?);
    };
    let Some(text) = value.as_str() else {
        return Err(bad_part(alloc, Place::Scope(i), ".prefix"));
    };
    let text = text.as_bytes();
    if !is_scope_prefix(text) {
        return Err(bad_part(alloc, Place::Scope(i), ".prefix"));
    }
    Ok(Txt::of(alloc, without_dot(text))?)
}

#[tactic(auto, unfolding(crate::specs::Scopes::scope_at))]
fn scope_at(
    alloc: Global,
    found: &[ScopeSpec],
    i: usize,
    value: &Value,
) -> Result<ScopeSpec, BootFault>
    ensures gives { Agrees result (scope_at found.now i (view value.now)) }
    ensures lawful { IfOk result (λ s. IsScopeSpec s) }
    ensures new { IfOk result (λ s. is_taken found.now s.label ≡ false) }
{
    let label = label_at(alloc, found, i, member(Some(value), "label"))?;
    let prefix = prefix_at(alloc, i, member(Some(value), "prefix"))?;
    Ok(ScopeSpec { label, prefix })
}

fn root(alloc: Global) -> Result<ScopeSpec, NoMemory>
    ensures { IfOk result (λ s. s ≡ root) }
{
    let label = Txt::of(alloc, b"root")?;
    let prefix = Txt::of(alloc, b"")?;
    Ok(ScopeSpec { label, prefix })
}

/// `root`, and then the scopes of a list.
fn scopes_in(alloc: Global, list: &[Value]) -> Result<Vec<ScopeSpec>, BootFault>
    requires { length list.now ≤ MAX_SCOPES }
    ensures gives { MatchResult result (λ v. scopes_from 0 (root ∷ []) (items_view list.now) ≡ Ok v.items)
        (λ f. f ≢ BootFault.NoMemory → scopes_from 0 (root ∷ []) (items_view list.now) ≡ Err f) }
    ensures lawful { IfOk result (λ v. AreScopes v.items) }
{
    let mut found = Vec::new(alloc);
    found.push(root(alloc)?)?;
    for (i, value) in list.iter().enumerate() {
        let scope = scope_at(alloc, &found, i, value)?;
        found.push(scope)?;
    }
    Ok(found)
}

/// The scopes that are open from the start.
#[tactic(auto, unfolding(crate::specs::Scopes::scopes_of))]
pub(crate) fn scopes_of(alloc: Global, found: Option<&Value>) -> Result<List<ScopeSpec>, BootFault>
    ensures gives { Agrees result (scopes_of (option_map (λ v. view v.now) found.entry)) }
    ensures lawful { IfOk result (λ l. AreScopes l) }
{
    let list = items_at(alloc, "stats_run.scopes", MAX_SCOPES, found)?;
    let scopes = scopes_in(alloc, list)?;
    Ok(List::of(scopes))
}
