//! What a seat of a lock knows. No value of these types is made but a `LockKey`.

use seat_history::LogKnown;
use seat_parts::Parts;
use stat_defs::NameOp;
use std::collections::LinkedList;
use std::snapshot::Snapshot;

/// The kinds of step on a lock's words.
pub enum LockKind {
    Take,
    Publish,
    Give,
    Load,
    /// A store of a word of a change, with the word's place among the words of all changes.
    StoreWord(u64),
    /// The number of changes is published.
    Count,
    /// A load of that number.
    LoadCount,
    /// A load of a word of a change, with the word's place.
    LoadWord(u64),
}

/// A step, with the word that it found, or that it stored.
pub struct LockStep {
    pub kind: LockKind,
    pub word: u64,
}

/// What a seat knows.
pub struct LockPart {
    /// Its number, and what it knows of the log of the book.
    pub seat: LogKnown,
    /// Whether it has the turn.
    pub holds: bool,
    /// How many changes the lock has room for.
    pub room: u64,
    /// The changes that it found, left or loaded last: all those below the greatest number of them that it knows.
    pub names: LinkedList<NameOp>,
    /// The words of changes that it stored and did not publish yet.
    pub stored: LinkedList<u64>,
    /// While it has the turn: no published change has a greater `at`.
    pub reach: u64,
    /// Its steps, the newest first.
    pub steps: LinkedList<LockStep>,
}

/// The part of a seat.
pub type LockView = Parts<LockPart>;

/// What the table of a lock is told: the book that the lock is made with, how many seats it has, and for how many
/// changes of names it has room.
#[derive(Drop)]
pub struct LockKey<B> {
    pub first: Snapshot<B>,
    pub seats: u64,
    pub room: u64,
}
