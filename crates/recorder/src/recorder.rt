//! The recorder.
use crate::hand::Hand;
use book_seat::BookSeat;
use ghost_list::GhostList;
use locked_book::LockedBook;
use stat_defs::{Event, Verdict};
use std::marker::Model;

/// A worker's recorder: its seats of the book, of the counters and of the gauges, and its halves. Contracts see what
/// its own calls did with them.
///
/// Its words and its half change by its own calls alone, and so do its entries in the book's log, whatever other threads
/// do meanwhile. So what it tells is a list of its own events, and holds at every moment of every interleaving.
#[derive(Drop)]
pub struct Recorder {
    pub(crate) seat: BookSeat<LockedBook>,
    pub(crate) hand: Hand,
    /// The place of its cell among those of the store.
    pub(crate) place: u32,
    /// The number of events that it was given.
    pub(crate) given: u32,
    pub(crate) work: GhostList<(Event, Verdict)>,
}

impl Model for Recorder {
    ghost use Rattle.recorder.specs.Knowing.{RecorderKnown};

    ghost Value = { RecorderKnown };

    ghost use Rattle.recorder.specs.RecorderKept.{shown, IsKept};

    ghost view = { shown };

    ghost invariant = { IsKept };
}
