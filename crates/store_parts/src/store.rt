//! The shared parts.
ghost use Rattle.std.specs.Prelude.{length};
ghost use Rattle.store_parts.specs.Whole.{IsWhole};

use locked_book::SharedBook;
use merge_round::Half;
use metric_words::{CounterBank, GaugeBank};
use turn_cell::TurnCell;

/// The book behind its lock, the words of counters and of gauges, one for each metric of the book, and the cells of the
/// workers, in order.
#[derive(Drop)]
pub struct Store {
    pub book: SharedBook,
    pub counters: CounterBank,
    pub gauges: GaugeBank,
    pub cells: Vec<TurnCell<Half>>,
    ghost whole: { IsWhole book counters gauges (length cells.items) },
}
