//! The end of a cell.
ghost use Rattle.std.specs.Prelude.{◌≡◌, ℕ, ◌≤◌, ◌++◌, true, false, length};
ghost use Rattle.turn_cell.specs.Turned.{own_turn, has_no_slot, is_resting};
ghost use Rattle.turn_cell.specs.declared.limits.TheConstants.{MAX_TURNED};
ghost use Rattle.turn_cell.specs.Tokens.{cell_id, note_known, flusher_known, IsIdle, weight_of};
ghost use Rattle.turn_cell.specs.Answers.{full_one};

use crate::cell::TurnCell;
use crate::tokens::{FlushAny, FlushIdle, FlushWaiting, LeftNote, Place};
use seat_parts::Merge;
use stat_defs::Weighed;

/// The half in the slot, and whether it is a full one that was not taken, or the spare.
#[derive(Drop)]
pub struct Rest<H> {
    pub half: H,
    pub full: bool,
}

impl<H: Weighed + Drop> TurnCell<H> {
    /// The half in the slot, once both parties are back. Where the flusher waits for none, it is the spare.
    pub fn close(self, note: LeftNote<H>, f: FlushAny<H>) -> Rest<H>
        requires cell { ((note_known note).cell ≡ cell_id self) × ((flusher_known f).cell ≡ cell_id self) }
        ensures halves { (note_known note).halves
            ≡ (flusher_known f).halves ++ full_one result.full result.half }
        ensures spare { result.full ≡ false → H.weighs result.half ≡ 0 }
        ensures idle { IsIdle f → result.full ≡ false }
        ensures weights { weight_of H.weighs (note_known note) ≤ MAX_TURNED }
    {
        let LeftNote { seat: mut both } = note;
        self.table.shared.join_seat::<Merge>(&mut both, seat_of(f));
        let TurnCell { table } = self;
        let mut closed = table.close_with(both);
        let word = closed.word(0);
        let half = closed.take(0).unwrap();
        closed.free();
        Rest {
            half,
            full: word == 11,
        }
    }
}

fn seat_of<H>(f: FlushAny<H>) -> Place<H>
    ensures cell { result.table_id ≡ (flusher_known f).cell }
    ensures alone { (length result.me.0.parts ≡ 1) × (length result.me.1 ≡ 0) }
    ensures halves { (own_turn result.me.0).halves ≡ (flusher_known f).halves }
    ensures stage { has_no_slot (own_turn result.me.0).party ≡ true }
    ensures idle { IsIdle f → is_resting (own_turn result.me.0).party ≡ true }
{
    match f {
        FlushAny::Idle(FlushIdle { seat }) => seat,
        FlushAny::Waiting(FlushWaiting { seat }) => seat,
    }
}
