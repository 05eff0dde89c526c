//! Why a bootstrap was not loaded.

use boot_file::BootFault;
use stat_defs::{NoMemory, Txt};
use std::error::Error;
use std::fmt::{Display, Formatter, Result as Written, Write};

/// Why a bootstrap was not loaded.
#[derive(Drop, Debug)]
pub enum LoadFault {
    /// The file has more than [`MAX_BOOT_BYTES`](crate::MAX_BOOT_BYTES).
    TooBig,
    /// The first fault of the bootstrap.
    Faulty(BootFault),
    /// The pattern at that path was refused.
    BadPattern(Txt),
    /// The file could not be opened.
    OpenFailed,
    /// A pull of the file's source failed. The number is how many faults the source has counted, at least one.
    ReadFailed(u64),
    /// There was no memory.
    NoMemory,
}

/// Without a path, which [`boot_line`](crate::boot_line) tells.
impl Display for LoadFault {
    ghost use Rattle.std.specs.Prelude.{Some};
    ghost use Rattle.boot_load.specs.BootLine.{load_fault_text};

    ghost output = { λ fault. Some (load_fault_text fault) };

    fn fmt<W: Write>(&self, f: &mut Formatter<W>) -> Written {
        match self {
            LoadFault::TooBig => f.write_str("too big"),
            LoadFault::Faulty(fault) => fault.fmt(f),
            LoadFault::BadPattern(_) => f.write_str("bad pattern"),
            LoadFault::OpenFailed | LoadFault::ReadFailed(_) => f.write_str("read failed"),
            LoadFault::NoMemory => f.write_str("out of memory"),
        }
    }
}

impl Error for LoadFault {}

impl From<NoMemory> for LoadFault {
    ghost use Rattle.std.specs.Prelude.{◌≡◌};
    ghost use Rattle.boot_load.specs.declared.fault.LoadFault.TheVariants as fault;

    ghost from_gives = { λ _ f. f ≡ fault.NoMemory };

    fn from(_: NoMemory) -> Self {
        LoadFault::NoMemory
    }
}
