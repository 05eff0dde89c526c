//! A shelf in memory whose sources count their pulls.
ghost use Rattle.stats_io.specs.MemSource.{as_source};
ghost use Rattle.stats_io.specs.MemShelf.{as_shelf, held_by};

use stats_io::{MemShelf, MemSource, OpenFault, Pull, Shelf, Source};
use std::alloc::Global;
use std::sync::atomic::{AtomicU64, Ordering};

/// How many bytes were pulled of the sources of a shelf, and how many pulls came behind an end or a failure.
#[derive(Drop)]
pub(crate) struct Meter {
    taken: AtomicU64,
    late: AtomicU64,
}

impl Meter {
    pub(crate) fn new() -> Meter {
        Meter {
            taken: AtomicU64::new(0),
            late: AtomicU64::new(0),
        }
    }

    pub(crate) fn taken(&self) -> u64 {
        self.taken.load(Ordering::SeqCst)
    }

    pub(crate) fn late(&self) -> u64 {
        self.late.load(Ordering::SeqCst)
    }
}

/// A source that counts its pulls.
#[derive(Drop)]
pub(crate) struct Metered<'a> {
    source: MemSource,
    has_ended: bool,
    meter: &'a Meter,
}

impl<'a> Source for Metered<'a> {
    ghost state = { λ metered. as_source metered.source };

    fn pull(&mut self, into: &mut [u8]) -> Pull {
        if self.has_ended {
            self.meter.late.fetch_add(1, Ordering::SeqCst);
        }
        let pull = self.source.pull(into);
        match pull {
            Pull::Bytes(count) => {
                self.meter.taken.fetch_add(count as u64, Ordering::SeqCst);
            }
            Pull::End | Pull::Failed => self.has_ended = true,
        }
        pull
    }

    fn fault_count(&self) -> u64 {
        self.source.fault_count()
    }
}

/// The shelf.
#[derive(Drop)]
pub(crate) struct MeteredShelf<'a> {
    pub(crate) shelf: MemShelf,
    pub(crate) meter: &'a Meter,
}

impl<'a> Shelf for MeteredShelf<'a> {
    type S = Metered<'a>;

    ghost holds = { λ metered name. held_by metered.shelf.files name };

    ghost state = { λ metered. as_shelf metered.shelf };

    fn open(&mut self, alloc: Global, name: &str) -> Result<Metered<'a>, OpenFault> {
        match self.shelf.open(alloc, name) {
            Ok(source) => Ok(Metered {
                source,
                has_ended: false,
                meter: self.meter,
            }),
            Err(fault) => Err(fault),
        }
    }

    fn fault_count(&self) -> u64 {
        self.shelf.fault_count()
    }
}
