//! Values of a bootstrap.
ghost use Rattle.std.specs.Prelude.{◌≡◌, ◌≢◌, ◌<◌, ◌≤◌, ◌^◌, length, Option, Ok, Err, MatchResult, IfOk, None, Some};
ghost use Rattle.std.specs.Prelude.{option_map};
ghost use Rattle.serde_json.specs.View.{view, items_view};
ghost use Rattle.boot_values.specs.Values.{json_of, member, has, is_section, section_at, switch_at, whole_at, items_at};
ghost use Rattle.boot_values.specs.Values.{item_count};
ghost use Rattle.boot_values.specs.Agrees.{Agrees};

use crate::fault::BootFault;
use crate::place::{bad_key, out_of_range};
use serde_json::Value;
use std::alloc::Global;

/// The limits of a whole number, and what stands for it where it is absent.
#[derive(Clone, Copy, PartialEq, Eq, Debug)]
pub struct Limits {
    /// The least number that is allowed.
    pub least: u32,
    /// The greatest number that is allowed.
    pub most: u32,
    /// The number where there is none, within the two others.
    pub absent: u32,
}

/// The value of the bytes, which are one JSON text in UTF-8, nested at most 127 deep: `NotJson` where they are not, and
/// `NoMemory`. How many bytes are too many is for the caller to say: time and memory are linear in them.
pub fn json_of(alloc: Global, bytes: &[u8]) -> Result<Value, BootFault>
    ensures { MatchResult result (λ v. json_of bytes.now ≡ Some (view v))
        (λ f. f ≢ BootFault.NoMemory → (json_of bytes.now ≡ None) × (f ≡ BootFault.NotJson)) }
{
    match Value::from_slice(alloc, bytes) {
        Ok(value) => Ok(value),
        Err(error) => {
            if error.is_memory() {
                Err(BootFault::NoMemory)
            } else {
                Err(BootFault::NotJson)
            }
        }
    }
}

/// The member of a section: nothing where the section is absent or no object, or lacks the member, or has null there.
pub fn member<'v>(section: Option<&'v Value>, name: &str) -> Option<&'v Value>
    ensures { option_map (λ v. view v.now) result ≡ member (option_map (λ v. view v.now) section.entry) name.now }
{
    let value = section?.get(name)?;
    if value.is_null() { None } else { Some(value) }
}

/// Whether a value has a member.
pub(crate) fn has(value: &Value, name: &str) -> bool
    ensures { result ≡ has (view value.now) name.now }
{
    member(Some(value), name).is_some()
}

/// Whether a value is an object, or absent.
pub fn is_section(found: Option<&Value>) -> bool
    ensures { result ≡ is_section (option_map (λ v. view v.now) found.entry) }
{
    let Some(value) = found else {
        return true;
    };
    value.is_object()
}

/// The value that was found, which is an object or absent: `BadKey` with this path where it is neither, and `NoMemory`.
pub fn section_at<'v>(
    alloc: Global,
    path: &str,
    found: Option<&'v Value>,
) -> Result<Option<&'v Value>, BootFault>
    ensures { MatchResult result
        (λ o. section_at path.now (option_map (λ v. view v.now) found.entry) ≡ Ok (option_map (λ v. view v.now) o))
        (λ f. f ≢ BootFault.NoMemory → section_at path.now (option_map (λ v. view v.now) found.entry) ≡ Err f) }
{
    if is_section(found) {
        Ok(found)
    } else {
        Err(bad_key(alloc, path))
    }
}

/// True or false, where absent is true: `BadKey` with this path for any other value, and `NoMemory`.
pub fn switch_at(alloc: Global, path: &str, found: Option<&Value>) -> Result<bool, BootFault>
    ensures { Agrees result (switch_at path.now (option_map (λ v. view v.now) found.entry)) }
{
    match found {
        None => Ok(true),
        Some(value) => match value.as_bool() {
            Some(switch) => Ok(switch),
            None => Err(bad_key(alloc, path)),
        },
    }
}

/// A whole number within limits, or what stands for an absent one: `BadKey` with this path for a value that is no whole
/// number, `OutOfRange` with this path for one that passes a limit, and `NoMemory`.
pub fn whole_at(
    alloc: Global,
    path: &str,
    limits: &Limits,
    found: Option<&Value>,
) -> Result<u32, BootFault>
    requires least { limits.now.least ≤ limits.now.absent }
    requires most { limits.now.absent ≤ limits.now.most }
    ensures gives { Agrees result (whole_at path.now limits.now (option_map (λ v. view v.now) found.entry)) }
    ensures within { IfOk result (λ n. (limits.now.least ≤ n) × (n ≤ limits.now.most)) }
{
    let Some(value) = found else {
        return Ok(limits.absent);
    };
    let Some(number) = value.as_number() else {
        return Err(bad_key(alloc, path));
    };
    if number.is_f64() {
        return Err(bad_key(alloc, path));
    }
    match number.as_u64() {
        Some(n) if limits.least as u64 <= n && n <= limits.most as u64 => Ok(n as u32),
        _ => Err(out_of_range(alloc, path)),
    }
}

/// The members of a list, at most so many, where absent is empty: `BadKey` with this path for a value that is no list,
/// `OutOfRange` with this path for a longer one, and `NoMemory`. The members are not looked at, and a null keeps its
/// place.
#[tactic(auto, using(crate::proofs::Facts::item_count_of_view))]
pub fn items_at<'v>(
    alloc: Global,
    path: &str,
    most: usize,
    found: Option<&'v Value>,
) -> Result<&'v [Value], BootFault>
    ensures gives { MatchResult result
        (λ s. items_at path.now most (option_map (λ v. view v.now) found.entry) ≡ Ok (items_view s.now))
        (λ f. f ≢ BootFault.NoMemory → items_at path.now most (option_map (λ v. view v.now) found.entry) ≡ Err f) }
    ensures few { IfOk result (λ s. length s.now ≤ most) }
{
    let Some(value) = found else {
        return Ok(&[]);
    };
    let Some(list) = value.as_array() else {
        return Err(bad_key(alloc, path));
    };
    if list.len() > most {
        return Err(out_of_range(alloc, path));
    }
    Ok(list.as_slice())
}
