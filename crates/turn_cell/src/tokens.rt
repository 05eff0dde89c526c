//! The tokens of a cell's two parties, by what each may do next. They have no bytes.
ghost use Rattle.std.specs.Prelude.{◌≡◌, true, length};
ghost use Rattle.turn_cell.specs.Turned.{own_turn, is_there, has_left, is_resting, is_waiting, is_holding, held_slot};

use crate::view::TurnView;
use atomic_table::Seat;

pub(crate) type Place<H> = Seat<Option<H>, TurnView<H>>;

/// The worker's, between its calls.
#[derive(Drop)]
pub struct TurnWorker<H> {
    pub(crate) seat: Place<H>,
    ghost alone: { (length seat.me.0.parts ≡ 1) × (length seat.me.1 ≡ 0) },
    ghost stage: { is_there (own_turn seat.me.0).party ≡ true },
}

/// What a worker that left leaves behind: the list of the halves that it turned.
#[derive(Drop)]
pub struct LeftNote<H> {
    pub(crate) seat: Place<H>,
    ghost alone: { (length seat.me.0.parts ≡ 1) × (length seat.me.1 ≡ 0) },
    ghost stage: { has_left (own_turn seat.me.0).party ≡ true },
}

/// The flusher's, which may ask.
#[derive(Drop)]
pub struct FlushIdle<H> {
    pub(crate) seat: Place<H>,
    ghost alone: { (length seat.me.0.parts ≡ 1) × (length seat.me.1 ≡ 0) },
    ghost stage: { is_resting (own_turn seat.me.0).party ≡ true },
}

/// The flusher's, which asked.
#[derive(Drop)]
pub struct FlushWaiting<H> {
    pub(crate) seat: Place<H>,
    ghost alone: { (length seat.me.0.parts ≡ 1) × (length seat.me.1 ≡ 0) },
    ghost stage: { is_waiting (own_turn seat.me.0).party ≡ true },
}

/// The flusher's, which took a half and owes a spare.
#[derive(Drop)]
pub struct FlushHolding<H> {
    pub(crate) seat: Place<H>,
    ghost alone: { (length seat.me.0.parts ≡ 1) × (length seat.me.1 ≡ 1) × (held_slot seat.me.1 ≡ 0) },
    ghost stage: { is_holding (own_turn seat.me.0).party ≡ true },
}

/// The flusher's at the end.
#[derive(Drop)]
pub enum FlushAny<H> {
    Idle(FlushIdle<H>),
    Waiting(FlushWaiting<H>),
}
