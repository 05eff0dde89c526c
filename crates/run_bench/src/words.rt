//! What the words ask for.

use load_scripts::MAX_SCRIPT_EVENTS;
use stat_defs::MAX_FLUSHES;
use std::env::Args;

/// A run of so many workers with so many events each, and its flushes and readings. The workers count under the same
/// names, or each under its own.
#[derive(Clone, Copy, Drop)]
pub(crate) struct Plan {
    pub(crate) workers: u32,
    pub(crate) flushes: u32,
    pub(crate) reads: u32,
    pub(crate) events: u32,
    pub(crate) own: bool,
}

impl Plan {
    /// Events between two rounds: each of them, and the last too, comes while workers still have events.
    pub(crate) fn flush_every(&self) -> u32 {
        (self.workers.wrapping_mul(self.events) / (MAX_FLUSHES + 1)).max(1)
    }
}

fn number_in(args: &mut Args) -> Option<u32> {
    match args.next() {
        Some(word) => word.as_str().parse::<u32>().ok(),
        None => None,
    }
}

/// The plan that three numbers say, and whether a word stands behind them.
pub(crate) fn plan_of(args: &mut Args) -> Option<Plan> {
    let Some(workers) = number_in(args) else {
        return None;
    };
    let Some(flushes) = number_in(args) else {
        return None;
    };
    let Some(reads) = number_in(args) else {
        return None;
    };
    Some(Plan {
        workers,
        flushes,
        reads,
        events: MAX_SCRIPT_EVENTS,
        own: args.next().is_some(),
    })
}
