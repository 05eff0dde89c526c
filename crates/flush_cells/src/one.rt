//! A look at one cell.
ghost use Rattle.std.specs.Prelude.{◌≡◌, ◌+◌, ◌≤◌, length};
ghost use Rattle.loglinear_bins.specs.declared.place.TheConstants.{MAX_COUNT};
ghost use Rattle.flush_cells.specs.Cells.{merged_count};
ghost use Rattle.turn_cell.specs.Tokens.{cell_id, holding_known};
ghost use Rattle.flush_cells.specs.Cells.{cell_known, held_weight, taken_weight, late_in, IsCellKept, most_merged};
ghost use Rattle.flush_cells.specs.Passes.{Merges, Passes};

use crate::tokens::FlushCell;
use merge_round::{Half, Parents};
use std::alloc::Global;
use turn_cell::{FlushHolding, Take, TurnCell};

// Merges a half that was taken, and gives it back. Where there is no memory it stays.
fn merge_one(
    alloc: Global,
    cell: &TurnCell<Half>,
    worker: u32,
    parents: &mut Parents,
    mut half: Half,
    f: FlushHolding<Half>,
) -> FlushCell
    requires cell { (holding_known f).cell ≡ cell_id cell.now }
    requires room { merged_count parents.old + length half.values ≤ MAX_COUNT }
    ensures merges { Merges worker half (holding_known f) parents.old parents.new result }
    ensures count { merged_count parents.new + held_weight result ≡ merged_count parents.old + length half.values }
{
    match parents.take_half(alloc, worker, &mut half) {
        Ok(()) => FlushCell::Idle(cell.give_back(f, half)),
        Err(_) => FlushCell::Holding(half, f),
    }
}

// Takes the half of a worker that was asked, where it is there, merges it, and gives it back. Gives the token, and the
// word that the one load found, where the worker has not turned yet.
pub(crate) fn pass_one(
    alloc: Global,
    cell: &TurnCell<Half>,
    worker: u32,
    parents: &mut Parents,
    seat: FlushCell,
) -> (FlushCell, Option<u64>)
    requires cell { (cell_known seat).cell ≡ cell_id cell.now }
    requires kept { IsCellKept seat }
    requires room { merged_count parents.old ≤ most_merged }
    ensures cell { (cell_known result.0).cell ≡ (cell_known seat).cell }
    ensures passes { Passes worker parents.old seat parents.new result.0 }
    ensures late { result.1 ≡ late_in result.0 }
    ensures kept { IsCellKept result.0 }
    ensures count { merged_count parents.new + held_weight result.0 + taken_weight seat
        ≡ merged_count parents.old + held_weight seat + taken_weight result.0 }
{
    match seat {
        FlushCell::Idle(f) => (FlushCell::Idle(f), None),
        FlushCell::Waiting(f) => match cell.take(f) {
            Take::NotYet(f, word) => (FlushCell::Waiting(f), Some(word)),
            Take::Left(f) => (FlushCell::Idle(f), None),
            Take::Full(half, f) => (merge_one(alloc, cell, worker, parents, half, f), None),
        },
        FlushCell::Holding(half, f) => (merge_one(alloc, cell, worker, parents, half, f), None),
    }
}
