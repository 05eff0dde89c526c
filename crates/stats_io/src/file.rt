//! Files of a shelf in memory.
ghost use Rattle.std.specs.Prelude.{◌≡◌, MatchOption, None, map};
ghost use Rattle.stats_io.specs.MemShelf.{mem_file, file_named, IsFirstNamed};

/// A file of a shelf in memory: what a source that is opened on it gives, in pieces of at most `piece` bytes, at least
/// 1. Its pulls whose numbers, from 0, stand in `fails` fail.
#[derive(Drop)]
pub struct MemFile {
    pub name: String,
    pub bytes: Vec<u8>,
    pub piece: usize,
    pub fails: Vec<u64>,
}

// The place of the first file of that name.
pub fn first_named(files: &[MemFile], name: &str) -> Option<usize>
    ensures { MatchOption result (file_named (map mem_file files.now) name.now ≡ None)
        (λ place. IsFirstNamed files.now place name.now) }
{
    for (place, file) in files.iter().enumerate() {
        if file.name.as_str() == name {
            return Some(place);
        }
    }
    None
}
