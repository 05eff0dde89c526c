//! What a seat of a counter bank knows. No value of these types is made but a `BankKey`.

use seat_parts::Parts;
use std::collections::LinkedList;

/// Who steps with a seat.
pub enum SeatRole {
    Worker,
    Flusher,
    Reader,
}

/// The kinds of step on a counter's words: the first step of an add, which goes to the value word, its second step,
/// which goes to the pending word, a latch of the pending word, and a load of the value word.
pub enum CountKind {
    First,
    Second,
    Latch,
    Load,
}

/// A step on a word of the counter `id`: its number, and the word that it found.
pub struct CountStep {
    pub kind: CountKind,
    pub id: u64,
    pub n: u64,
    pub found: u64,
}

/// A seat of a bank of so many workers, by its number, with its steps, the newest first.
pub struct CountPart {
    pub role: SeatRole,
    pub seat: u64,
    pub workers: u64,
    pub steps: LinkedList<CountStep>,
}

/// The part of a seat, and behind it those of the seats that it took in.
pub type CountView = Parts<CountPart>;

/// What the table of a bank is told: how many workers it has, and how many counters.
#[derive(Clone, Copy, Drop)]
pub struct BankKey {
    pub workers: u64,
    pub size: u64,
}
