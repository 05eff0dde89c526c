//! The tokens of all cells, and what was merged.
ghost use Rattle.std.specs.Prelude.{◌≡◌, ◌⊎◌, ◌≤◌, [], All, length, map, IfOk, OnOk, OnErr, vec_capacity};
ghost use Rattle.merge_round.specs.Halves.{bins_by};
ghost use Rattle.merge_round.specs.Rounds.{new_parents, after_round, worker_values, ArePartsOf};
ghost use Rattle.turn_cell.specs.Tokens.{cell_id};
ghost use Rattle.flush_cells.specs.Cells.{cell_of, merged_count, AreKept, IsNotHolding, IsRoundOf};
ghost use Rattle.flush_cells.specs.Asks.{AsksEach};
ghost use Rattle.flush_cells.specs.Passes.{PassesEach};
ghost use Rattle.flush_cells.specs.Late.{pass_from};

use crate::asking::ask_into;
use crate::passing::{Pass, pass_each};
use crate::tokens::FlushCell;
use merge_round::{Half, Parents};
use stat_defs::{NoMemory, Part};
use std::alloc::Global;
use std::mem::replace;
use turn_cell::TurnCell;

/// The flusher's token of each worker's cell, in the order of workers from 1, and the parents that it merges their
/// halves into. No more values were merged than were taken, and the round has halves of these workers alone.
#[derive(Drop)]
pub struct FlushCells {
    pub(crate) tokens: Vec<FlushCell>,
    pub(crate) parents: Parents,
    ghost kept: { AreKept (merged_count parents) tokens.items },
    ghost round: { IsRoundOf (length tokens.items) parents.round },
}

impl FlushCells {
    /// These tokens, and no values. This takes no memory.
    pub fn new(alloc: Global, tokens: Vec<FlushCell>) -> FlushCells
        requires { AreKept 0 tokens.items }
        ensures tokens { result.tokens ≡ tokens }
        ensures parents { result.parents ≡ new_parents }
    {
        FlushCells {
            tokens,
            parents: Parents::new(alloc),
        }
    }

    /// The memory that the requests take.
    pub fn room(&self, alloc: Global) -> Result<Vec<FlushCell>, NoMemory>
        ensures { IfOk result (λ room. (room.items ≡ []) × (length self.now.tokens.items ≤ vec_capacity room)) }
    {
        Ok(Vec::with_capacity(alloc, self.tokens.len())?)
    }

    /// Asks each worker once for its half, in order. One that left is not asked again. The memory is taken before, as
    /// `room`, so that this cannot fail.
    pub fn ask(&mut self, alloc: Global, mut room: Vec<FlushCell>, cells: &[TurnCell<Half>])
        requires cells { map cell_id cells.now ≡ map cell_of self.old.tokens.items }
        requires room { (room.items ≡ []) × (length self.old.tokens.items ≤ vec_capacity room) }
        ensures cells { map cell_of self.new.tokens.items ≡ map cell_of self.old.tokens.items }
        ensures asks { AsksEach self.old.tokens.items self.new.tokens.items }
        ensures parents { self.new.parents ≡ self.old.parents }
    {
        let tokens = replace(&mut self.tokens, Vec::new(alloc));
        ask_into(cells, tokens, &mut room);
        self.tokens = room;
    }

    /// Looks once at the cell of each worker that was asked, in order, merges the halves that are there and gives them
    /// back empty. Where there is no memory for a merge, that half is held until the next pass.
    pub fn pass(&mut self, alloc: Global, cells: &[TurnCell<Half>]) -> Result<Pass, NoMemory>
        requires cells { map cell_id cells.now ≡ map cell_of self.old.tokens.items }
        ensures cells { map cell_of self.new.tokens.items ≡ map cell_of self.old.tokens.items }
        ensures passes { OnOk result
            (PassesEach 1 self.old.parents self.old.tokens.items self.new.parents self.new.tokens.items) }
        ensures told { IfOk result (λ pass. pass ≡ pass_from 1 self.new.tokens.items) }
        ensures none_held { OnOk result (All IsNotHolding self.new.tokens.items) }
        ensures err { OnErr result (((self.new.parents ≡ self.old.parents)
            × (self.new.tokens.items ≡ self.old.tokens.items))
            ⊎ PassesEach 1 self.old.parents self.old.tokens.items self.new.parents self.new.tokens.items) }
    {
        pass_each(alloc, cells, &mut self.parents, &mut self.tokens)
    }

    /// The parts of the round, by worker and then by histogram, and a new round.
    pub fn parts(&mut self, alloc: Global) -> Result<Vec<Part>, NoMemory>
        ensures listed { IfOk result (λ list.
            ArePartsOf (λ worker. bins_by (worker_values worker self.old.parents.round)) list.items) }
        ensures tokens { self.new.tokens ≡ self.old.tokens }
        ensures ok { OnOk result (self.new.parents ≡ after_round self.old.parents) }
        ensures err { OnErr result (self.new ≡ self.old) }
    {
        self.parents.new_round(alloc)
    }

    /// The tokens and the parents at the end of a store.
    pub fn into_parts(self) -> (Vec<FlushCell>, Parents)
        ensures parts { (result.0 ≡ self.tokens) × (result.1 ≡ self.parents) }
        ensures kept { AreKept (merged_count self.parents) self.tokens.items }
        ensures round { IsRoundOf (length self.tokens.items) self.parents.round }
    {
        let FlushCells { tokens, parents } = self;
        (tokens, parents)
    }
}
