//! The lines of a script, made one by one.
ghost use Rattle.std.specs.Prelude.{◌≤◌, length};

use crate::lines::Line;

/// A script whose lines are being made: the one that is held, from `at` on, and those of the events behind it.
#[derive(Drop)]
pub(crate) struct Making {
    pub script: u32,
    /// The state behind which the next event is drawn.
    pub x: u64,
    /// The number of events whose lines are not made yet.
    pub events: u32,
    pub line: Line,
    pub at: usize,
    ghost within: { at ≤ length line.bytes },
}
