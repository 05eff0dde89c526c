//! What a worker does with its halves. Nothing waits.
ghost use Rattle.std.specs.Prelude.{◌≡◌, ℕ, ◌<◌, ◌≤◌, [], IsOk, IsTrue, OnOk, OnErr};
ghost use Rattle.turn_cell.specs.declared.limits.TheConstants.{MAX_TURNED};
ghost use Rattle.turn_cell.specs.declared.view.TurnKind.TheVariants.{Leave};
ghost use Rattle.turn_cell.specs.Tokens.{cell_id, worker_known, note_known, after_step};
ghost use Rattle.merge_round.specs.Halves.{is_warm_in};
ghost use Rattle.half_side.specs.Halves.{value_count, after_recording, LooksAndTurns};

use crate::side::HalfSide;
use merge_round::Half;
use stat_defs::{MetricId, NoMemory};
use std::alloc::Global;
use std::mem::replace;
use turn_cell::{LeftNote, TurnCell, TurnWorker};

impl HalfSide {
    /// The side of a worker that has turned no half, with an empty one.
    pub fn new(cell: TurnWorker<Half>, half: Half) -> HalfSide
        requires turned { (worker_known cell).halves ≡ [] }
        requires empty { half.values ≡ [] }
        ensures { result ≡ record { cell = worker_known cell; active = half } }
    {
        HalfSide { half, cell }
    }

    /// Records one value of a histogram in the active half. Where the half has recorded of it before, this takes no
    /// memory. Without memory nothing changes.
    #[inline(always)]
    pub fn record(&mut self, alloc: Global, id: MetricId, v: u64) -> Result<(), NoMemory>
        requires { value_count self.old < MAX_TURNED }
        ensures ok { OnOk result (self.new ≡ after_recording id.0 v self.old) }
        ensures sure { IsTrue (is_warm_in self.old.active id.0) → IsOk result }
        ensures err { OnErr result (self.new ≡ self.old) }
    {
        self.half.record(alloc, id, v)
    }

    /// Looks once whether the flusher asks for the half, by one atomic load, and turns it where it does, which this
    /// tells. This takes no memory.
    #[inline(always)]
    pub fn turn_if_asked(&mut self, alloc: Global, cell: &TurnCell<Half>) -> bool
        requires { self.old.cell.cell ≡ cell_id cell.now }
        ensures { LooksAndTurns result self.old self.new }
    {
        if !cell.asked(&mut self.cell) {
            return false;
        }
        let full = replace(&mut self.half, Half::new(alloc));
        let spare = cell.turn(&mut self.cell, full);
        self.half = spare;
        true
    }

    /// Leaves the cell, and returns the note for its end and the active half.
    pub fn leave(self, cell: &TurnCell<Half>) -> (LeftNote<Half>, Half)
        requires { self.cell.cell ≡ cell_id cell.now }
        ensures note { (word : ℕ) × (note_known result.0 ≡ after_step Leave word self.cell) }
        ensures half { result.1 ≡ self.active }
        ensures few { value_count self ≤ MAX_TURNED }
    {
        let HalfSide { half, cell: token } = self;
        (cell.leave(token), half)
    }
}
