//! A flusher's token of one cell.

use merge_round::Half;
use turn_cell::{FlushHolding, FlushIdle, FlushWaiting};

/// Maximum number of workers.
pub const MAX_CELLS: u32 = 32;

/// What the flusher has of one cell between its calls. A half that it took and could not merge for want of memory stays
/// with it until the next pass.
#[derive(Drop)]
pub enum FlushCell {
    Idle(FlushIdle<Half>),
    Waiting(FlushWaiting<Half>),
    Holding(Half, FlushHolding<Half>),
}
