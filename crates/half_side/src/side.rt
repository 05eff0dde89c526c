//! The side.

use merge_round::Half;
use std::marker::Model;
use turn_cell::TurnWorker;

/// A worker's active half, and its token of its cell. Contracts see the values of the active half, those of each half
/// that was turned, and the steps on the cell's word.
#[derive(Drop)]
pub struct HalfSide {
    pub(crate) half: Half,
    pub(crate) cell: TurnWorker<Half>,
}

impl Model for HalfSide {
    ghost use Rattle.half_side.specs.Halves.{HalfKnown};

    ghost Value = { HalfKnown };

    ghost use Rattle.half_side.specs.SideKept.{shown, IsKept};

    ghost view = { shown };

    ghost invariant = { IsKept };
}
