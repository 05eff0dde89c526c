//! Why a bootstrap is refused.

use stat_defs::{NoMemory, Txt};
use std::alloc::{AllocError, AllocFailed};
use std::error::Error;
use std::fmt::{Display, Formatter, Result as Written, Write};

/// The first fault of a bootstrap. Each text is the path of what is wrong: members stand after dots and places of lists
/// in brackets from 0, as in `stats_config.stats_tags[0].regex`, and the whole value is `top`.
#[derive(Drop, Debug, PartialEq, Eq)]
pub enum BootFault {
    /// The bytes are no JSON text in UTF-8, or one that nests more than 127 deep.
    NotJson,
    /// A value of another type or shape than stated, or an object that lacks a member.
    BadKey(Txt),
    /// The member of `stats_tags` at this place, from 0, is no tag rule.
    BadTag(u32),
    /// The bounds of a bucket setting; the path is that of its `buckets`.
    BadBucket(Txt),
    /// A list, a number or a pattern's text passes its limit.
    OutOfRange(Txt),
    /// There was no memory.
    NoMemory,
}

/// Without a path.
impl Display for BootFault {
    ghost use Rattle.std.specs.Prelude.{Some};
    ghost use Rattle.boot_values.specs.BootFault.{boot_fault_text};

    ghost output = { λ fault. Some (boot_fault_text fault) };

    fn fmt<W: Write>(&self, f: &mut Formatter<W>) -> Written {
        match self {
            BootFault::NotJson => f.write_str("not json"),
            BootFault::BadKey(_) => f.write_str("bad key"),
            BootFault::BadTag(_) => f.write_str("bad tag"),
            BootFault::BadBucket(_) => f.write_str("bad bucket"),
            BootFault::OutOfRange(_) => f.write_str("out of range"),
            BootFault::NoMemory => f.write_str("out of memory"),
        }
    }
}

impl Error for BootFault {}

impl From<NoMemory> for BootFault {
    ghost use Rattle.std.specs.Prelude.{◌≡◌};
    ghost use Rattle.boot_values.specs.declared.fault.BootFault.TheVariants as fault;

    ghost from_gives = { λ _ f. f ≡ fault.NoMemory };

    fn from(_: NoMemory) -> BootFault {
        BootFault::NoMemory
    }
}

impl From<AllocError> for BootFault {
    ghost use Rattle.std.specs.Prelude.{◌≡◌};
    ghost use Rattle.boot_values.specs.declared.fault.BootFault.TheVariants as fault;

    ghost from_gives = { λ _ f. f ≡ fault.NoMemory };

    fn from(_: AllocError) -> BootFault {
        BootFault::NoMemory
    }
}

impl<T: Drop> From<AllocFailed<T>> for BootFault {
    ghost use Rattle.std.specs.Prelude.{◌≡◌};
    ghost use Rattle.boot_values.specs.declared.fault.BootFault.TheVariants as fault;

    ghost from_gives = { λ _ f. f ≡ fault.NoMemory };

    fn from(_: AllocFailed<T>) -> BootFault {
        BootFault::NoMemory
    }
}
