//! Full names.
ghost use Rattle.std.specs.Prelude.{◌≡◌, ◌++◌, ◌∷◌, IfOk, IfSome};
ghost use Rattle.stat_defs.specs.Names.{IsLocalName, IsScopePrefix, IsFullName, full};

use arrayvec::ArrayVec;
use stat_defs::{NoMemory, Txt};
use std::alloc::Global;

// Maximum number of bytes of a full name that is made without memory of its own.
const MAX_SHORT: usize = 22;

/// The full name of a local name in a scope of this prefix.
pub fn full_name(alloc: Global, prefix: &Txt, name: &Txt) -> Result<Txt, NoMemory>
    requires prefix { IsScopePrefix prefix.now }
    requires name { IsLocalName name.now }
    ensures { IfOk result (λ text. text ≡ full prefix.now name.now) }
{
    let prefix = prefix.bytes();
    if prefix.is_empty() {
        return Ok(name.clone()?);
    }
    let name = name.bytes();
    if let Some(text) = short_name(prefix, name) {
        return Txt::of(alloc, text.as_slice());
    }
    let mut text = Vec::with_capacity(alloc, prefix.len() + 1 + name.len())?;
    text.extend_from_slice(prefix)?;
    text.push(b'.')?;
    text.extend_from_slice(name)?;
    Txt::of_vec(text)
}

// The full name, if it is short.
fn short_name(prefix: &[u8], name: &[u8]) -> Option<ArrayVec<u8, MAX_SHORT>>
    ensures { IfSome result (λ text. text.items ≡ prefix.now ++ 46 ∷ name.now) }
{
    let mut text = ArrayVec::new();
    text.try_extend_from_slice(prefix).ok()?;
    text.try_push(b'.').ok()?;
    text.try_extend_from_slice(name).ok()?;
    Some(text)
}
