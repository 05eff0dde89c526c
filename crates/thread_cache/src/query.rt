//! Keys as they are looked up.
ghost use Rattle.std.specs.Prelude.{◌∷◌, []};
ghost use Rattle.std.specs.Cmp.Rules.{hashing};
ghost use Rattle.std.proofs.Common.{rules};
ghost use Rattle.thread_cache.specs.Keys.{asked};
ghost use Rattle.thread_cache.specs.Held.{is_at};
ghost use Rattle.thread_cache.specs.KeyLaws.{hashed_as, found_as};

use crate::key::CacheKey;
use crate::texts::texts_equal;
use indexmap::Equivalent;
use stat_defs::{Kind, Mode};
use std::hash::{Hash, Hasher};

/// A key that is looked up. It borrows its texts, as from an event.
#[derive(Clone, Copy, PartialEq, Eq)]
pub struct Query<'a> {
    pub label: &'a [u8],
    pub kind: Kind,
    pub mode: Mode,
    pub name: &'a [u8],
}

// The hash of the key that it asks for.
impl Hash for Query<'_> {
    ghost hash_input = { λ query. query.label.now ∷ query.name.now ∷ [] };

    ghost respects_eq = { Prim.search (hashing, rules) };

    #[inline(always)]
    fn hash<H: Hasher>(&self, state: &mut H) {
        state.write(self.label);
        state.write(self.name);
    }
}

impl<'a> Equivalent<CacheKey> for &Query<'a> {
    ghost equivalent = { λ query. is_at (asked query.now) };

    ghost respects_hash = { λ query. hashed_as query.now };

    ghost respects_eq = { λ query. found_as query.now };

    #[inline(always)]
    fn equivalent(&self, key: &CacheKey) -> bool {
        texts_equal(self.label, key.label.bytes())
            && self.kind == key.kind
            && self.mode == key.mode
            && texts_equal(self.name, key.name.bytes())
    }
}
