//! What a recorder leaves behind.

use book_seat::BookSeat;
use ghost_list::GhostList;
use locked_book::LockedBook;
use merge_round::Half;
use metric_words::{GaugeSeat, WorkerSeat};
use stat_defs::{Event, Verdict};
use turn_cell::LeftNote;

/// A worker's seats, the note of its cell and its active half, when it is done. Contracts see its events with their
/// verdicts.
#[derive(Drop)]
pub struct Ended {
    pub seat: BookSeat<LockedBook>,
    pub counts: WorkerSeat,
    pub gauges: GaugeSeat,
    pub note: LeftNote<Half>,
    pub half: Half,
    pub work: GhostList<(Event, Verdict)>,
}
