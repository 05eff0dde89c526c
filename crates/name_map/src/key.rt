//! Keys of hashes.

use std::hash::{BuildHasher, FoldHasher, Hasher};
use std::io;
use std::random::RandomSource;

/// What a table hashes under: the toolchain's folding hasher, begun with a word.
#[derive(Clone, Copy)]
pub struct HashKey {
    begun: FoldHasher,
}

impl HashKey {
    /// The hasher begun with this word.
    pub fn of(word: u64) -> HashKey {
        let mut begun = FoldHasher::default();
        begun.write_u64(word);
        HashKey { begun }
    }

    /// The same key in every run, for names that nobody chose to be slow.
    pub fn fixed() -> HashKey {
        HashKey::of(0)
    }

    /// A key that the system's random source draws. It fails only where that source fails.
    pub fn drawn<R: RandomSource>(rt: &R) -> io::Result<HashKey> {
        let mut bytes = [0; 8];
        rt.fill_bytes(&mut bytes)?;
        Ok(HashKey::of(u64::from_le_bytes(bytes)))
    }
}

impl BuildHasher for HashKey {
    type Hasher = FoldHasher;

    ghost build_hasher = { λ key. key.begun };

    fn build_hasher(&self) -> FoldHasher {
        self.begun
    }
}
