//! What a call left, and what it is to come to.

use stats_commands::Outcome;
use stats_io::{MemShelf, MemSink};
use std::alloc::Global;
use std::test::Fail;

/// What a call left.
#[derive(Drop)]
pub struct Played {
    pub outcome: Outcome,
    pub out: MemSink,
    pub err: MemSink,
    pub shelf: MemShelf,
}

/// What a call is to come to.
#[derive(Clone, Copy)]
pub struct Wanted<'a> {
    pub status: u8,
    pub reports: bool,
    pub out: &'a [u8],
    pub err: &'a [u8],
}

/// Words parted by spaces; none where the text is empty.
pub fn words_of(alloc: Global, text: &str) -> Result<Vec<String>, Fail> {
    let mut words = Vec::new(alloc);
    if !text.is_empty() {
        for word in text.split(' ') {
            words.push(String::from_str(alloc, word)?)?;
        }
    }
    Ok(words)
}

impl Played {
    /// Whether the call came to what is wanted.
    pub fn came_to(&self, wanted: Wanted<'_>) -> bool {
        if self.outcome.status != wanted.status || self.outcome.report.is_some() != wanted.reports {
            return false;
        }
        self.out.bytes() == wanted.out && self.err.bytes() == wanted.err
    }
}
