//! The poll before each event, and the end.
ghost use Rattle.std.specs.Prelude.{◌≡◌, ◌<◌, Some, IfOk, OnErr, length, slice_get};
ghost use Rattle.turn_cell.specs.Tokens.{cell_id};
ghost use Rattle.store_parts.specs.Ids.{ids_of};
ghost use Rattle.recorder.specs.Knowing.{HasItsCell};
ghost use Rattle.recorder.specs.Calling.{PollsOnce, PollIsCutShort};
ghost use Rattle.recorder.specs.Ending.{LeavesHand, EndsIts};

use crate::ended::Ended;
use crate::hand::Hand;
use crate::recorder::Recorder;
use book_seat::BookSeat;
use ghost_list::GhostList;
use locked_book::{LockedBook, Way};
use merge_round::Half;
use stat_defs::{Event, NoMemory, Verdict};
use std::alloc::Global;
use std::sync::Wait;
use store_parts::Store;
use turn_cell::TurnCell;

/// What a poll did: whether it turned the half, and whether it acknowledged releases.
#[derive(Clone, Copy, Drop, Debug, PartialEq, Eq)]
pub struct Polled {
    pub turned: bool,
    pub acked: bool,
}

// The cell at this place.
#[inline(always)]
fn cell_at(store: &Store, place: u32) -> &TurnCell<Half>
    requires { place < length store.now.cells.items }
    ensures { slice_get store.now.cells.items place ≡ Some result.now }
{
    &store.cells[place as usize]
}

// What is left of a worker whose seat has ended, once it has left its cell.
fn left_behind(
    seat: BookSeat<LockedBook>,
    hand: Hand,
    work: GhostList<(Event, Verdict)>,
    cell: &TurnCell<Half>,
) -> Ended
    requires { hand.side.cell.cell ≡ cell_id cell.now }
    ensures { LeavesHand seat hand work result }
{
    let Hand {
        counts,
        gauges,
        side,
    } = hand;
    let (note, half) = side.leave(cell);
    Ended {
        seat,
        counts,
        gauges,
        note,
        half,
        work,
    }
}

impl Recorder {
    /// Looks once whether the flusher asks for the half, which is turned then, and loads the number of releases once.
    /// Where that is above what the seat has acknowledged, all are acknowledged by one call of the book, which may wait.
    #[inline(always)]
    pub fn poll<R: Wait>(
        &mut self,
        rt: &R,
        alloc: Global,
        store: &Store,
    ) -> Result<Polled, NoMemory>
        requires own { self.old.of ≡ ids_of store.now }
        requires cell { HasItsCell store.now self.old }
        ensures ok { IfOk result (λ polled. PollsOnce polled self.old self.new) }
        ensures err { OnErr result (PollIsCutShort self.old self.new) }
    {
        let turned = self
            .hand
            .side
            .turn_if_asked(alloc, cell_at(store, self.place));
        let way = Way {
            rt,
            book: &store.book,
        };
        let acked = self.seat.poll(&way, alloc)?;
        Ok(Polled { turned, acked })
    }

    /// Ends the recorder's seat in the book, which may wait, and leaves its cell. Without memory the recorder is dropped,
    /// and its seat has not ended.
    pub fn end<R: Wait>(self, rt: &R, alloc: Global, store: &Store) -> Result<Ended, NoMemory>
        requires own { self.of ≡ ids_of store.now }
        requires cell { HasItsCell store.now self }
        ensures { IfOk result (λ ended. EndsIts self ended) }
    {
        let Recorder {
            mut seat,
            hand,
            place,
            given: _,
            work,
        } = self;
        let way = Way {
            rt,
            book: &store.book,
        };
        match seat.end(&way, alloc) {
            Ok(()) => Ok(left_behind(seat, hand, work, cell_at(store, place))),
            Err(refused) => {
                drop(seat);
                drop(hand);
                Err(refused)
            }
        }
    }
}
