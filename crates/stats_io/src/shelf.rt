//! What opens sources by their names.
ghost use Rattle.std.specs.Prelude.{◌≡◌, ◌≢◌, ◌≤◌, ℕ, List, Option, Err, IfOk};
ghost use Rattle.stats_io.specs.declared.shelf.OpenFault.TheVariants.{NoMemory};
ghost use Rattle.stats_io.specs.States.{ShelfState};
ghost use Rattle.stats_io.specs.Open.{IsUnpulled, IsUnopened};

use crate::source::Source;
use std::alloc::{AllocError, Global};
use std::error::Error;
use std::fmt::{Display, Formatter, Result as Written, Write};
use std::marker::Send;

/// Why no source was opened.
#[derive(Clone, Copy, Debug, PartialEq, Eq)]
pub enum OpenFault {
    /// The opening failed, and the shelf's count of faults rose.
    Failed,
    NoMemory,
}

impl Display for OpenFault {
    ghost use Rattle.std.specs.Prelude.{Some};
    ghost use Rattle.stats_io.specs.OpenFault.{open_fault_text};

    ghost output = { λ fault. Some (open_fault_text fault) };

    fn fmt<W: Write>(&self, f: &mut Formatter<W>) -> Written {
        match self {
            OpenFault::Failed => f.write_str("not opened"),
            OpenFault::NoMemory => f.write_str("out of memory"),
        }
    }
}

impl Error for OpenFault {}

impl From<AllocError> for OpenFault {
    ghost from_gives = { λ _ e. e ≡ NoMemory };

    fn from(_: AllocError) -> Self {
        OpenFault::NoMemory
    }
}

/// What opens sources by their names, as a folder.
pub trait Shelf {
    type S: Source + Send + Drop;

    /// What each name holds, where the shelf tells it.
    ghost holds: { Self → List ℕ → Option (List ℕ) };

    /// How often an opening has failed, up to the last value of a `u64`, which never falls, and the name whose opening
    /// failed last.
    ghost state: { Self → ShelfState };

    /// Opens the source of that name, whose count of faults is 0. What any name holds stays.
    fn open(&mut self, alloc: Global, name: &str) -> Result<Self::S, OpenFault>
        ensures opened { IfOk result (λ source. IsUnpulled (holds self.old name.now) name.now (Self.S.state source)) }
        ensures failed { result ≡ Err OpenFault.Failed → IsUnopened name.now (state self.old) (state self.new) }
        ensures kept { result ≢ Err OpenFault.Failed → state self.new ≡ state self.old }
        ensures contents { (other : List ℕ) → holds self.new other ≡ holds self.old other }
        ensures later { (state self.old).faults ≤ (state self.new).faults };

    /// The count of faults.
    fn fault_count(&self) -> u64
        ensures { result ≡ (state self.now).faults };
}
