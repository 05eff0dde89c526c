//! The cells of a new store.
ghost use Rattle.std.specs.Prelude.{◌≡◌, ◌+◌, ◌<◌, length, IfOk, OnOk, vec_len, vec_capacity};
ghost use Rattle.store_opening.specs.Cells.{AreNewCells, IsCellDeal};

use flush_cells::FlushCell;
use half_side::HalfSide;
use merge_round::Half;
use stat_defs::NoMemory;
use std::alloc::Global;
use turn_cell::TurnCell;

/// Cells with a spare half each, and in the same order the worker's side of each and the flusher's token.
#[derive(Drop)]
pub(crate) struct CellDeal {
    pub(crate) cells: Vec<TurnCell<Half>>,
    pub(crate) sides: Vec<HalfSide>,
    pub(crate) tokens: Vec<FlushCell>,
}

// No cells, and room for so many.
fn no_cells(alloc: Global, room: u32) -> Result<CellDeal, NoMemory>
    ensures deal { IfOk result IsCellDeal }
    ensures none { IfOk result (λ deal. vec_len deal.cells ≡ 0) }
    ensures room { IfOk result (λ deal. vec_capacity deal.cells ≡ room) }
{
    Ok(CellDeal {
        cells: Vec::with_capacity(alloc, room as usize)?,
        sides: Vec::with_capacity(alloc, room as usize)?,
        tokens: Vec::with_capacity(alloc, room as usize)?,
    })
}

// One cell more, for which there is room.
fn deal_one(alloc: Global, deal: &mut CellDeal) -> Result<(), NoMemory>
    requires deal { IsCellDeal deal.old }
    requires room { vec_len deal.old.cells < vec_capacity deal.old.cells }
    ensures deal { OnOk result (IsCellDeal deal.new) }
    ensures more { OnOk result (vec_len deal.new.cells ≡ vec_len deal.old.cells + 1) }
    ensures room { OnOk result (vec_capacity deal.new.cells ≡ vec_capacity deal.old.cells) }
{
    let (cell, worker, idle) = TurnCell::new(alloc, Half::new(alloc))?;
    deal.cells.push_reserved(cell);
    deal.sides
        .push_reserved(HalfSide::new(worker, Half::new(alloc)));
    deal.tokens.push_reserved(FlushCell::Idle(idle));
    Ok(())
}

// A cell for each worker.
pub(crate) fn deal_cells(alloc: Global, workers: u32) -> Result<CellDeal, NoMemory>
    ensures count { IfOk result (λ deal. length deal.cells.items ≡ workers) }
    ensures new { IfOk result (λ deal. AreNewCells deal.cells.items deal.sides.items deal.tokens.items) }
{
    let mut deal = no_cells(alloc, workers)?;
    for _ in 0..workers {
        if deal_one(alloc, &mut deal).is_err() {
            drop(deal);
            return Err(NoMemory);
        }
    }
    Ok(deal)
}
