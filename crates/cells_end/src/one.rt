//! The end of one cell.
ghost use Rattle.std.specs.Prelude.{◌≡◌, ◌+◌, ◌≤◌, ◌++◌, ◌∷◌, [], length, IfOk, OnOk};
ghost use Rattle.loglinear_bins.specs.declared.place.TheConstants.{MAX_COUNT};
ghost use Rattle.turn_cell.specs.declared.limits.TheConstants.{MAX_TURNED};
ghost use Rattle.turn_cell.specs.Tokens.{cell_id, flusher_known};
ghost use Rattle.turn_cell.specs.Answers.{full_one};
ghost use Rattle.flush_cells.specs.Cells.{cell_known, held_weight, merged_count, most_merged, IsCellKept};
ghost use Rattle.cells_end.specs.Ends.{held_half, with_halves, most_left, IsEnd, EndsOne};

use crate::end::CellEnd;
use flush_cells::FlushCell;
use merge_round::{Half, Parents};
use stat_defs::NoMemory;
use std::alloc::Global;
use turn_cell::{FlushAny, Rest, TurnCell};

// The flusher's token as a cell's end takes it: a half that is held is merged before, and given back.
fn settle(
    alloc: Global,
    cell: &TurnCell<Half>,
    worker: u32,
    parents: &mut Parents,
    token: FlushCell,
) -> Result<FlushAny<Half>, NoMemory>
    requires cell { (cell_known token).cell ≡ cell_id cell.now }
    requires room { merged_count parents.old + held_weight token ≤ MAX_COUNT }
    ensures cell { IfOk result (λ f. (flusher_known f).cell ≡ (cell_known token).cell) }
    ensures halves { IfOk result (λ f. (flusher_known f).halves ≡ (cell_known token).halves) }
    ensures merged { OnOk result (parents.new ≡ with_halves worker (held_half token) parents.old) }
{
    match token {
        FlushCell::Idle(f) => Ok(FlushAny::Idle(f)),
        FlushCell::Waiting(f) => Ok(FlushAny::Waiting(f)),
        FlushCell::Holding(mut half, f) => {
            parents.take_half(alloc, worker, &mut half)?;
            Ok(FlushAny::Idle(cell.give_back(f, half)))
        }
    }
}

// Merges the half that was turned and not taken, if there is one, and then the active one.
fn merge_rest(
    alloc: Global,
    worker: u32,
    parents: &mut Parents,
    rest: Rest<Half>,
    active: Half,
) -> Result<(), NoMemory>
    requires { merged_count parents.old + length rest.half.values + length active.values ≤ MAX_COUNT }
    ensures { OnOk result
        (parents.new ≡ with_halves worker (full_one rest.full rest.half ++ active ∷ []) parents.old) }
{
    let Rest { mut half, full } = rest;
    let mut active = active;
    if full {
        parents.take_half(alloc, worker, &mut half)?;
    }
    parents.take_half(alloc, worker, &mut active)
}

// Merges what is left of one worker, in the order in which it was recorded.
pub(crate) fn end_one(
    alloc: Global,
    worker: u32,
    parents: &mut Parents,
    token: FlushCell,
    end: CellEnd,
) -> Result<(), NoMemory>
    requires end { IsEnd token end }
    requires kept { IsCellKept token }
    requires room { merged_count parents.old ≤ most_merged }
    ensures ends { OnOk result (EndsOne worker token end parents.old parents.new) }
    ensures count { OnOk result (merged_count parents.new ≤ merged_count parents.old + most_left) }
{
    let CellEnd { cell, note, half } = end;
    let f = settle(alloc, &cell, worker, parents, token)?;
    let rest = cell.close(note, f);
    merge_rest(alloc, worker, parents, rest, half)
}
