//! A shelf in memory.
ghost use Rattle.std.specs.Prelude.{◌≡◌, ◌≢◌, ◌≤◌, ◌⊎◌, ◌↔◌, ℕ, List, None, [], map, All, Err, IfOk, Contains};
ghost use Rattle.stats_io.specs.Open.{IsUnpulled, IsUnopened};
ghost use Rattle.stats_io.specs.MemSource.{as_source, counted};
ghost use Rattle.stats_io.specs.MemShelf.{IsSourceOf, as_shelf, file_named, held_by, opened};

use crate::file::{MemFile, first_named};
use crate::mem_source::MemSource;
use crate::shelf::{OpenFault, Shelf};
use std::alloc::Global;
use std::marker::Model;

/// A shelf in memory. An opening fails where the shelf has no file of that name, or where the opening's number, from 0,
/// stands in `fails`. Of two files of one name the first is opened.
#[derive(Drop)]
pub struct MemShelf {
    files: Vec<MemFile>,
    fails: Vec<u64>,
    calls: u64,
    faults: u64,
    failed: Option<Vec<u8>>,
}

impl Model for MemShelf {
    ghost use Rattle.std.specs.Prelude.{map, All};
    ghost use Rattle.stats_io.specs.MemShelf.{MemShelfState, mem_file, HasPiece, last_failed};

    ghost Value = { MemShelfState };

    ghost view = { λ s. record {
      files = map mem_file s.files.items;
      fails = s.fails.items;
      calls = s.calls;
      faults = s.faults;
      failed = last_failed s.failed;
    } };

    ghost invariant = { λ s. All HasPiece s.files.items };
}

impl MemShelf {
    ghost use Rattle.stats_io.specs.MemShelf.{mem_file, HasPiece};

    /// A shelf of these files, on which nothing was opened yet.
    pub fn new(files: Vec<MemFile>, fails: Vec<u64>) -> MemShelf
        requires { All HasPiece files.items }
        ensures { result ≡ record {
          files = map mem_file files.items;
          fails = fails.items;
          calls = 0;
          faults = 0;
          failed = [];
        } }
    {
        MemShelf {
            files,
            fails,
            calls: 0,
            faults: 0,
            failed: None,
        }
    }

    // Counts a failed opening of that name.
    fn refuse(&mut self, name: Vec<u8>) -> OpenFault
        ensures fault { result ≡ OpenFault.Failed }
        ensures shelf { self.new ≡ record self.old {
          calls = counted self.old.calls;
          faults = counted self.old.faults;
          failed = name.items;
        } }
    {
        self.calls = self.calls.saturating_add(1);
        self.faults = self.faults.saturating_add(1);
        self.failed = Some(name);
        OpenFault::Failed
    }
}

impl Shelf for MemShelf {
    type S = MemSource;

    ghost holds = { λ s name. held_by s.files name };

    ghost state = { as_shelf };

    fn open(&mut self, alloc: Global, name: &str) -> Result<MemSource, OpenFault>
        ensures opened { IfOk result (λ source. IsUnpulled (held_by self.old.files name.now) name.now
            (as_source source)) }
        ensures failed { result ≡ Err OpenFault.Failed → IsUnopened name.now (as_shelf self.old) (as_shelf self.new) }
        ensures kept { result ≢ Err OpenFault.Failed → as_shelf self.new ≡ as_shelf self.old }
        ensures contents { (other : List ℕ) → held_by self.new.files other ≡ held_by self.old.files other }
        ensures later { self.old.faults ≤ self.new.faults }

        // Which openings fail, and what an opened source is.
        ensures source { IfOk result (λ source. IsSourceOf name.now (file_named self.old.files name.now) source) }
        ensures fails { result ≢ Err OpenFault.NoMemory → (result ≡ Err OpenFault.Failed)
            ↔ (Contains self.old.fails self.old.calls ⊎ (file_named self.old.files name.now ≡ None)) }
        ensures state { self.new ≡ opened name.now result self.old }
    {
        let call = self.calls;
        let last = name.as_bytes().to_vec(alloc)?;
        let origin = String::from_str(alloc, name)?;
        let Some(place) = first_named(&self.files, name) else {
            return Err(self.refuse(last));
        };
        if self.fails.contains(&call) {
            return Err(self.refuse(last));
        }
        let file = &self.files[place];
        let bytes = file.bytes.to_vec(alloc)?;
        let fails = file.fails.to_vec(alloc)?;
        let piece = file.piece;
        self.calls = call.saturating_add(1);
        Ok(MemSource::new(origin, bytes, piece, fails))
    }

    fn fault_count(&self) -> u64 {
        self.faults
    }
}
