//! What is said of a bootstrap that was not loaded.
ghost use Rattle.std.specs.Prelude.{◌≡◌, ◌++◌, IfOk, codes};
ghost use Rattle.boot_load.specs.BootLine.{faulty_line, boot_line};

use crate::fault::LoadFault;
use boot_file::BootFault;
use stat_defs::{NoMemory, Txt};
use std::alloc::Global;

fn line_with(alloc: Global, start: &str, path: &Txt) -> Result<Vec<u8>, NoMemory>
    ensures { IfOk result (λ line. line.items ≡ start.now ++ (path.now ++ codes "\n")) }
{
    let mut line = start.as_bytes().to_vec(alloc)?;
    line.extend_from_slice(path.bytes())?;
    line.extend_from_slice(b"\n")?;
    Ok(line)
}

fn tag_line(alloc: Global, i: u32) -> Result<Vec<u8>, NoMemory>
    ensures { IfOk result (λ line. line.items ≡ faulty_line (BootFault.BadTag i)) }
{
    Ok(format!(in alloc; "boot: bad tag {i}\n")?.into_bytes())
}

fn faulty_line(alloc: Global, fault: &BootFault) -> Result<Vec<u8>, NoMemory>
    ensures { IfOk result (λ line. line.items ≡ faulty_line fault.now) }
{
    match fault {
        BootFault::NotJson => Ok(b"boot: not json\n".to_vec(alloc)?),
        BootFault::BadKey(path) => line_with(alloc, "boot: bad key at ", path),
        BootFault::BadTag(i) => tag_line(alloc, *i),
        BootFault::BadBucket(path) => line_with(alloc, "boot: bad bucket at ", path),
        BootFault::OutOfRange(path) => line_with(alloc, "boot: out of range at ", path),
        BootFault::NoMemory => Ok(b"out of memory\n".to_vec(alloc)?),
    }
}

/// The line on it.
pub fn boot_line(alloc: Global, fault: &LoadFault) -> Result<Vec<u8>, NoMemory>
    ensures { IfOk result (λ line. line.items ≡ boot_line fault.now) }
{
    match fault {
        LoadFault::TooBig => Ok(b"boot: too big\n".to_vec(alloc)?),
        LoadFault::Faulty(fault) => faulty_line(alloc, fault),
        LoadFault::BadPattern(path) => line_with(alloc, "boot: bad pattern at ", path),
        LoadFault::OpenFailed | LoadFault::ReadFailed(_) => {
            Ok(b"boot: read failed\n".to_vec(alloc)?)
        }
        LoadFault::NoMemory => Ok(b"out of memory\n".to_vec(alloc)?),
    }
}
