//! What a seat knows of a log.

use stat_defs::{Config, Entry};
use std::collections::LinkedList;

/// A seat of a book by its number, and what it knows of the book's log. No value of this type is made.
pub struct LogKnown {
    pub number: u64,
    /// The configuration, the number of workers and the log of the book that the seat was made with.
    pub config: Config,
    pub workers: u64,
    pub first: LinkedList<Entry>,
    /// The log that the seat found or left last, or the first one where it has made no call.
    pub known: LinkedList<Entry>,
    /// The entries that its calls made, in order.
    pub made: LinkedList<Entry>,
    /// The most releases that it found, left or loaded.
    pub seen: u64,
}
