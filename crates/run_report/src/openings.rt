//! Files that are opened one after another, before any is read.
ghost use Rattle.std.specs.Prelude.{◌≡◌, ◌++◌, ◌∷◌, [], ℕ, List, IfOk, OnOk, map, string_bytes};
ghost use Rattle.run_report.specs.Opened.{IsOpening, AreOpened};

use file_reading::open_file;
use stat_defs::{NoMemory, WorkerEnd};
use stats_io::Shelf;
use std::alloc::Global;
use worker_run::Given;

/// A file that was opened; or one that could not be, and its end.
#[derive(Drop)]
pub(crate) struct Opening<S> {
    pub(crate) file: Given<S>,
    pub(crate) end: Option<WorkerEnd>,
}

/// Files as they were opened, and the end of each that could not be, both in order.
#[derive(Drop)]
pub(crate) struct Openings<S> {
    pub(crate) files: Vec<Given<S>>,
    pub(crate) ends: Vec<Option<WorkerEnd>>,
}

// What a worker is given of a file of a shelf, and its end where it cannot be opened.
fn open_for_worker<F: Shelf>(
    alloc: Global,
    shelf: &mut F,
    name: &str,
) -> Result<Opening<F::S>, NoMemory>
    ensures opened { IfOk result (λ opening. IsOpening F.state F.S.state (F.holds shelf.old name.now) name.now
        shelf.old shelf.new opening.file opening.end) }
    ensures contents { (other : List ℕ) → F.holds shelf.new other ≡ F.holds shelf.old other }
{
    match open_file(alloc, shelf, name)? {
        Ok(source) => Ok(Opening {
            file: Given::Opened(source),
            end: None,
        }),
        Err(end) => Ok(Opening {
            file: Given::Missing,
            end: Some(end),
        }),
    }
}

// Adds one file more.
fn push_opening<S: Drop>(openings: &mut Openings<S>, opening: Opening<S>) -> Result<(), NoMemory>
    ensures files { OnOk result (openings.new.files.items ≡ openings.old.files.items ++ opening.file ∷ []) }
    ensures ends { OnOk result (openings.new.ends.items ≡ openings.old.ends.items ++ opening.end ∷ []) }
{
    let Opening { file, end } = opening;
    openings.files.push(file)?;
    openings.ends.push(end)?;
    Ok(())
}

/// Opens the files of a shelf in order. One that cannot be opened keeps its place.
pub(crate) fn open_files<F: Shelf>(
    alloc: Global,
    shelf: &mut F,
    names: &[String],
) -> Result<Openings<F::S>, NoMemory>
    ensures { IfOk result (AreOpened F.state F.S.state (F.holds shelf.old) (map string_bytes names.now)
        shelf.old shelf.new) }
{
    let mut openings = Openings {
        files: Vec::new(alloc),
        ends: Vec::new(alloc),
    };
    for name in names {
        let opening = open_for_worker(alloc, shelf, name.as_str())?;
        push_opening(&mut openings, opening)?;
    }
    Ok(openings)
}
