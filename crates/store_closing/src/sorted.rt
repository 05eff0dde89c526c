//! What the workers of a store left, by what it is of.

use cells_end::CellEnd;
use locked_book::LockedBook;
use metric_words::{GaugeSeat, WorkerSeat};

/// The seats of the book, those of the counters and of the gauges, and the cells with what is left in them. Each list has
/// the workers in order; the store's own seats stand before or behind them.
#[derive(Drop)]
pub(crate) struct Sorted {
    pub(crate) seats: Vec<LockedBook>,
    pub(crate) counts: Vec<WorkerSeat>,
    pub(crate) gauges: Vec<GaugeSeat>,
    pub(crate) ends: Vec<CellEnd>,
}
