//! Requests of all workers' halves.
ghost use Rattle.std.specs.Prelude.{◌≡◌, ℕ, ◌≤◌, [], length, map, vec_capacity};
ghost use Rattle.turn_cell.specs.Tokens.{cell_id};
ghost use Rattle.flush_cells.specs.Cells.{cell_known, cell_of, held_weight, taken_weight, IsCellKept, AreKept};
ghost use Rattle.flush_cells.specs.Asks.{Asks, AsksEach};

use crate::tokens::FlushCell;
use merge_round::Half;
use turn_cell::{Request, TurnCell};

// Asks one worker for its half, where nothing is owed. One that left is not asked.
pub(crate) fn ask_one(cell: &TurnCell<Half>, seat: FlushCell) -> FlushCell
    requires cell { (cell_known seat).cell ≡ cell_id cell.now }
    ensures cell { (cell_known result).cell ≡ (cell_known seat).cell }
    ensures asks { Asks seat result }
    ensures kept { IsCellKept seat → IsCellKept result }
    ensures weights { (held_weight result ≡ held_weight seat) × (taken_weight result ≡ taken_weight seat) }
{
    match seat {
        FlushCell::Idle(f) => match cell.request(f) {
            Request::Asked(f) => FlushCell::Waiting(f),
            Request::Left(f) => FlushCell::Idle(f),
        },
        other => other,
    }
}

// Asks each worker once, in order, into a list that has room for the tokens.
pub(crate) fn ask_into(cells: &[TurnCell<Half>], seats: Vec<FlushCell>, asked: &mut Vec<FlushCell>)
    requires cells { map cell_id cells.now ≡ map cell_of seats.items }
    requires room { (asked.old.items ≡ []) × (length seats.items ≤ vec_capacity asked.old) }
    ensures cells { map cell_of asked.new.items ≡ map cell_id cells.now }
    ensures asks { AsksEach seats.items asked.new.items }
    ensures kept { (count : ℕ) → AreKept count seats.items → AreKept count asked.new.items }
{
    for seat in seats {
        let cell = &cells[asked.len()];
        asked.push_reserved(ask_one(cell, seat));
    }
}
