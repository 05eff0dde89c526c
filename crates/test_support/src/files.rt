//! Files in memory, given in pieces of 16 bytes.
ghost use Rattle.std.specs.Prelude.{◌≤◌, IfOk};

use stats_io::{MemFile, MemShelf};
use std::alloc::Global;
use std::test::Fail;

/// A file that is given in pieces of 16 bytes, whose pull of that number fails.
pub fn file_of(alloc: Global, name: &str, bytes: &[u8], failing_pull: u64) -> Result<MemFile, Fail>
    ensures { IfOk result (λ file. 1 ≤ file.piece) }
{
    Ok(MemFile {
        name: String::from_str(alloc, name)?,
        bytes: bytes.to_vec(alloc)?,
        piece: 16,
        fails: vec![in alloc; failing_pull]?,
    })
}

/// A shelf with the file `f1`.
pub fn shelf_of(alloc: Global, file: &[u8], failing_pull: u64) -> Result<MemShelf, Fail> {
    let file = file_of(alloc, "f1", file, failing_pull)?;
    Ok(MemShelf::new(vec![in alloc; file]?, Vec::new(alloc)))
}

/// A shelf with the files `f1`, `f2` and `f3`, of each of which the pull of that number fails.
pub fn shelf_with(
    alloc: Global,
    first: &[u8],
    second: &[u8],
    third: &[u8],
    failing_pull: u64,
) -> Result<MemShelf, Fail> {
    let first = file_of(alloc, "f1", first, failing_pull)?;
    let second = file_of(alloc, "f2", second, failing_pull)?;
    let third = file_of(alloc, "f3", third, failing_pull)?;
    Ok(MemShelf::new(vec![in alloc; first, second, third]?, Vec::new(alloc)))
}
