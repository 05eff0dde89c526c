//! What a seat of a cell knows. No value of these types is made.

use seat_parts::Parts;
use std::collections::LinkedList;

/// What the word of a cell says of its slot.
pub enum Phase {
    /// The slot has the spare.
    Idle,
    /// The slot has the spare, and the worker is asked to turn.
    Asked,
    /// The worker moves the slot.
    WorkerHolds,
    /// The slot has a full half.
    Full,
    /// The flusher moves the slot.
    FlusherHolds,
}

/// Where the worker stands, by what its last step found.
pub enum WorkerStage {
    /// It fills its half.
    Working,
    /// Its last load found that it is asked.
    MayTurn,
    /// It moves the slot.
    Turning,
    Departed,
}

/// Where the flusher stands, by what its last step found.
pub enum FlusherStage {
    Resting,
    /// It asked.
    Waiting,
    /// Its last load found a full half.
    Found,
    /// Its last load found that the worker left, and no full half.
    Alone,
    /// It moves the slot.
    Holding,
}

pub enum Party {
    Worker(WorkerStage),
    Flusher(FlusherStage),
}

/// The kinds of step on the word of a cell: a load of either party; of the worker the begin and the end of
/// a turn, and its leaving;
/// of the flusher a request, a collection, and a return.
pub enum TurnKind {
    Load,
    Begin,
    Give,
    Leave,
    Ask,
    Collect,
    Return,
}

/// A step, with the word that it found.
pub struct TurnStep {
    pub kind: TurnKind,
    pub found: u64,
}

/// A party, the halves that it turned or took, in order, and its steps, the newest first.
pub struct TurnPart<H> {
    pub party: Party,
    pub halves: LinkedList<H>,
    pub steps: LinkedList<TurnStep>,
}

/// The part of a seat, and behind it that of the seat that it took in.
pub type TurnView<H> = Parts<TurnPart<H>>;
