//! Keys as the table keeps them.
ghost use Rattle.std.specs.Prelude.{◌≡◌, ◌∷◌, [], IfOk};
ghost use Rattle.std.specs.Cmp.Rules.{hashing};
ghost use Rattle.std.proofs.Common.{rules};
ghost use Rattle.thread_cache.specs.Keys.{key_of};

use stat_defs::{Key, Kind, Mode, NoMemory, Txt};
use std::hash::{Hash, Hasher};

/// A key as the table keeps it.
#[derive(PartialEq, Eq, Drop)]
pub(crate) struct CacheKey {
    pub(crate) label: Txt,
    pub(crate) kind: Kind,
    pub(crate) mode: Mode,
    pub(crate) name: Txt,
}

// Label and name are hashed, each as a whole. A name has few kinds and modes.
impl Hash for CacheKey {
    ghost hash_input = { λ key. key.label ∷ key.name ∷ [] };

    ghost respects_eq = { Prim.search (hashing, rules) };

    fn hash<H: Hasher>(&self, state: &mut H) {
        state.write(self.label.bytes());
        state.write(self.name.bytes());
    }
}

// The key as it is kept, which shares the texts.
pub(crate) fn copy_of(key: &Key) -> Result<CacheKey, NoMemory>
    ensures { IfOk result (λ copy. key_of copy ≡ key.now) }
{
    Ok(CacheKey {
        label: key.label.clone()?,
        kind: key.kind,
        mode: key.mode,
        name: key.name.clone()?,
    })
}
