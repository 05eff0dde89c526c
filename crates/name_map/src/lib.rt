//! The table of names: entries in the order of their insertion, looked up by a hash under a key.
//!
//! Names come from files, so a table of them is hashed under a key that whoever wrote the files does not know. Else he
//! could write names that all have one hash, and each look-up would go through all of them. No contract speaks of the
//! hash: what a table holds, and in which order, is the same under every key.
#![tactic(auto)]

ghost use Rattle.std.specs.Prelude.{◌≡◌};
ghost use Rattle.indexmap.specs.IndexMap.{IsEmpty, IsUnique, index_map_len};

mod key;

use indexmap::IndexMap;
pub use key::HashKey;
use std::alloc::Global;
use std::hash::{BuildHasher, Hash};

/// Entries by name. Every table whose keys come from files or from a bootstrap is one.
pub type NameMap<K, V> = IndexMap<K, V, HashKey, Global>;

/// A table without entries.
pub fn name_map<K: Eq + Hash, V>(alloc: Global, key: HashKey) -> NameMap<K, V>
    ensures empty { IsEmpty result }
    ensures len { index_map_len result ≡ 0 }
    ensures unique { IsUnique K.eq result }
{
    IndexMap::with_hasher(alloc, key)
}

/// A law: no two keys of a table are equal.
#[inline(always)]
pub fn keys_differ<K: Eq + Hash, V, S: BuildHasher>(table: &IndexMap<K, V, S, Global>)
    ensures { IsUnique K.eq table.now }
{
    let _len = table.len();
}
