//! The opening of a file.
ghost use Rattle.std.specs.Prelude.{◌≡◌, ℕ, List, IfOk};
ghost use Rattle.file_reading.specs.Opening.{OpensFile};

use crate::reading::not_opened;
use stat_defs::{NoMemory, WorkerEnd};
use stats_io::{OpenFault, Shelf};
use std::alloc::Global;

/// Opens a file of a shelf, or returns the end of one that cannot be opened, with the shelf's counts of faults before and
/// after.
pub fn open_file<F: Shelf>(
    alloc: Global,
    shelf: &mut F,
    name: &str,
) -> Result<Result<F::S, WorkerEnd>, NoMemory>
    ensures opens { IfOk result (OpensFile F.state F.S.state (F.holds shelf.old name.now) name.now shelf.old shelf.new) }
    ensures contents { (other : List ℕ) → F.holds shelf.new other ≡ F.holds shelf.old other }
{
    let faults_before = shelf.fault_count();
    match shelf.open(alloc, name) {
        Ok(source) => Ok(Ok(source)),
        Err(OpenFault::Failed) => Ok(Err(not_opened(faults_before, shelf.fault_count()))),
        Err(OpenFault::NoMemory) => Err(NoMemory),
    }
}
