//! What a worker leaves of its histograms.

use merge_round::Half;
use turn_cell::{LeftNote, TurnCell};

/// The cell of a worker that left, its note, and its active half.
#[derive(Drop)]
pub struct CellEnd {
    pub cell: TurnCell<Half>,
    pub note: LeftNote<Half>,
    pub half: Half,
}
