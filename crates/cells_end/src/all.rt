//! The end of all cells.
ghost use Rattle.std.specs.Prelude.{◌≡◌, IfOk, OnOk};
ghost use Rattle.flush_cells.specs.Cells.{merged_count, AreKept};
ghost use Rattle.cells_end.specs.Ends.{AreEnds, EndsEach};
ghost use Rattle.cells_end.specs.LastRound.{IsLastRound};

use crate::end::CellEnd;
use crate::one::end_one;
use flush_cells::{FlushCell, FlushCells};
use merge_round::Parents;
use stat_defs::{NoMemory, Part};
use std::alloc::Global;

// Merges what is left of each worker, in order.
fn end_each(
    alloc: Global,
    parents: &mut Parents,
    tokens: Vec<FlushCell>,
    ends: Vec<CellEnd>,
) -> Result<(), NoMemory>
    requires ends { AreEnds tokens.items ends.items }
    requires kept { AreKept (merged_count parents.old) tokens.items }
    ensures { OnOk result (EndsEach 1 tokens.items ends.items parents.old parents.new) }
{
    let mut waiting = tokens.into_iter();
    let mut worker = 0;
    for end in ends {
        let Some(token) = waiting.next() else {
            unreachable!();
        };
        worker += 1;
        end_one(alloc, worker, parents, token, end)?;
    }
    Ok(())
}

/// Merges, of each worker in order, the half that the flusher holds, the one that was turned and not taken, and the
/// active one, and gives the parts of the round. After want of memory all is gone.
pub fn end_cells(
    alloc: Global,
    cells: FlushCells,
    ends: Vec<CellEnd>,
) -> Result<Vec<Part>, NoMemory>
    requires { AreEnds cells.tokens.items ends.items }
    ensures { IfOk result (λ parts. IsLastRound cells.tokens.items cells.parents ends.items parts.items) }
{
    let (tokens, mut parents) = cells.into_parts();
    end_each(alloc, &mut parents, tokens, ends)?;
    parents.new_round(alloc)
}
