//! The seat, by the code of every seat.
ghost use Rattle.std.specs.Prelude.{◌≡◌, ◌<◌, IfOk, OnErr};
ghost use Rattle.stat_defs.specs.Borrowed.{event_of};
ghost use Rattle.stat_defs.specs.Events.{IsLawfulEvent};
ghost use Rattle.book_state.specs.declared.limits.TheConstants.{MAX_OPENINGS};
ghost use Rattle.book_state.specs.Step.{Works};
ghost use Rattle.stat_book.specs.Calls.{state_of, openings_by};
ghost use Rattle.plain_store.specs.Seats.{AppliesAlone, CutsAlone};

use book_access::OwnedBook;
use book_seat::BookSeat;
use stat_defs::{EventRef, NoMemory, Verdict};
use std::alloc::Global;

/// The number of the seat, and of the worker whose values the half has.
pub(crate) const SEAT: u32 = 1;

/// Decides an event, after an acknowledgement where one is due.
#[inline(always)]
pub(crate) fn apply(
    seat: &mut BookSeat<OwnedBook>,
    alloc: Global,
    event: &EventRef<'_>,
) -> Result<Verdict, NoMemory>
    requires number { seat.old.number ≡ 1 }
    requires works { Works (state_of seat.old.book) 1 }
    requires lawful { IsLawfulEvent (event_of event.now) }
    requires room { openings_by 1 seat.old.book.log < MAX_OPENINGS }
    ensures applied { IfOk result (λ verdict. AppliesAlone (event_of event.now) verdict seat.old seat.new) }
    ensures err { OnErr result (CutsAlone (event_of event.now) seat.old seat.new) }
{
    seat.poll(&(), alloc)?;
    seat.decide(&(), alloc, event)
}
