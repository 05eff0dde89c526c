//! Turns at the book's lock, and loads of its number of releases.
ghost use Rattle.std.specs.Prelude.{◌≤◌};

use crate::loads;
use crate::locks::{self, Shape};
use crate::timing::{COUNTED, no_memory, print_per_call};
use std::io;
use std::io::Print;
use std::sync::Wait;
use std::thread::Threads;
use std::time::{Clock, Instant};

/// Turns of each thread where they are timed.
const TIMED: u32 = 2_000_000;

/// The same of loads, which take much less.
const TIMED_LOADS: u32 = 400_000_000;

const SHAPES: [(Shape, &str); 3] = [
    (Shape::One, "enter, push, leave, one thread"),
    (Shape::Two, "enter, push, leave, two threads"),
    (Shape::Four, "enter, push, leave, four threads"),
];

/// Prints how many entries there are, and what the loads sum up to.
pub fn count<R: Threads + Wait + Sync + Print + Clock + AllocGlobal>(rt: &R) -> io::Result<()> {
    for (shape, name) in SHAPES {
        let entries = locks::run(rt, rt.alloc(), shape, COUNTED).map_err(no_memory)?;
        println!(rt; "{name}: entries {entries}")?;
    }
    let sum = loads::run(rt.alloc(), COUNTED).map_err(no_memory)?;
    println!(rt; "releases: sum {sum}")
}

/// Prints the time of each turn and of a load.
pub fn time<R: Threads + Wait + Sync + Print + Clock + AllocGlobal>(rt: &R) -> io::Result<()> {
    for (shape, name) in SHAPES {
        let start = Instant::now(rt)?;
        locks::run(rt, rt.alloc(), shape, TIMED).map_err(no_memory)?;
        print_per_call(rt, name, start, TIMED)?;
    }
    let start = Instant::now(rt)?;
    let sum = loads::run(rt.alloc(), TIMED_LOADS).map_err(no_memory)?;
    print_per_call(rt, "releases", start, TIMED_LOADS)?;
    println!(rt; "loaded {sum}")
}
