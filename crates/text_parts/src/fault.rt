//! Why a text was not written whole.
ghost use Rattle.std.specs.Prelude.{◌≡◌};
ghost use Rattle.text_parts.specs.declared.fault.TextFault.TheVariants.{WriteFault as write_fault};
ghost use Rattle.text_parts.specs.declared.fault.TextFault.TheVariants.{NoMemory as no_memory};

use stat_defs::NoMemory;
use stats_io::WriteFault;
use std::alloc::AllocError;
use std::error::Error;
use std::fmt::{Display, Formatter, Result as Written, Write};

/// Why a text was not written whole.
#[derive(Clone, Copy, Debug, PartialEq, Eq)]
pub enum TextFault {
    /// A push failed, and the sink's count of faults rose. A front of the text was written.
    WriteFault,
    /// There was no memory. A front of the text was written.
    NoMemory,
}

impl Display for TextFault {
    ghost use Rattle.std.specs.Prelude.{Some};
    ghost use Rattle.text_parts.specs.TextFault.{text_fault_text};

    ghost output = { λ fault. Some (text_fault_text fault) };

    fn fmt<W: Write>(&self, f: &mut Formatter<W>) -> Written {
        match self {
            TextFault::WriteFault => f.write_str("write failed"),
            TextFault::NoMemory => f.write_str("out of memory"),
        }
    }
}

impl Error for TextFault {}

impl From<AllocError> for TextFault {
    ghost from_gives = { λ _ e. e ≡ no_memory };

    fn from(_: AllocError) -> Self {
        TextFault::NoMemory
    }
}

impl From<NoMemory> for TextFault {
    ghost from_gives = { λ _ e. e ≡ no_memory };

    fn from(_: NoMemory) -> Self {
        TextFault::NoMemory
    }
}

impl From<WriteFault> for TextFault {
    ghost from_gives = { λ _ e. e ≡ write_fault };

    fn from(_: WriteFault) -> Self {
        TextFault::WriteFault
    }
}
