//! Adds to counter words and steps on gauge words.
ghost use Rattle.std.specs.Prelude.{◌≤◌};

use crate::counters::{self, Shape};
use crate::gauges::{self, Call};
use crate::timing::{COUNTED, no_memory, print_per_call};
use std::io;
use std::io::Print;
use std::thread::Threads;
use std::time::{Clock, Instant};

/// Calls of each thread where they are timed.
const TIMED: u32 = 4_000_000;

/// The same of loads, which take much less.
const TIMED_LOADS: u32 = 400_000_000;

const SHAPES: [(Shape, &str); 3] = [
    (Shape::OneThread, "add, one thread"),
    (Shape::OneCounter, "add, four threads on one counter"),
    (Shape::FourCounters, "add, four threads on four counters"),
];

const CALLS: [(Call, &str, u32); 5] = [
    (Call::Add, "gauge add", TIMED),
    (Call::Sub, "gauge sub", TIMED),
    (Call::Set, "gauge set", TIMED),
    (Call::Value, "gauge value", TIMED_LOADS),
    (Call::ValuesInARow, "gauge values in a row", TIMED_LOADS),
];

const fn threads(four: bool) -> &'static str {
    if four { "four threads" } else { "one thread" }
}

fn count_counters<R: Threads + Sync + Print + Clock + AllocGlobal>(rt: &R) -> io::Result<()> {
    for (shape, name) in SHAPES {
        let totals = counters::run(rt, rt.alloc(), shape, COUNTED).map_err(no_memory)?;
        println!(rt;
            "{name}: value {}, pending {}, of the four {:?}",
            totals.value, totals.pending, totals.values
        )?;
    }
    Ok(())
}

fn count_gauges<R: Threads + Sync + Print + Clock + AllocGlobal>(
    rt: &R,
    four: bool,
) -> io::Result<()> {
    for (call, name, _) in CALLS {
        let word = gauges::run(rt, rt.alloc(), call, four, COUNTED).map_err(no_memory)?;
        println!(rt; "{name}, {}: word {word}", threads(four))?;
    }
    Ok(())
}

/// Prints what the words come to.
pub fn count<R: Threads + Sync + Print + Clock + AllocGlobal>(rt: &R) -> io::Result<()> {
    count_counters(rt)?;
    count_gauges(rt, false)?;
    count_gauges(rt, true)
}

fn time_counters<R: Threads + Sync + Print + Clock + AllocGlobal>(rt: &R) -> io::Result<()> {
    for (shape, name) in SHAPES {
        let start = Instant::now(rt)?;
        counters::run(rt, rt.alloc(), shape, TIMED).map_err(no_memory)?;
        print_per_call(rt, name, start, TIMED)?;
    }
    Ok(())
}

fn time_gauges<R: Threads + Sync + Print + Clock + AllocGlobal>(
    rt: &R,
    four: bool,
) -> io::Result<()> {
    for (call, name, times) in CALLS {
        let start = Instant::now(rt)?;
        gauges::run(rt, rt.alloc(), call, four, times).map_err(no_memory)?;
        let name = format!(in rt.alloc(); "{name}, {}", threads(four))?;
        print_per_call(rt, &name, start, times)?;
    }
    Ok(())
}

/// Prints the time of each call.
pub fn time<R: Threads + Sync + Print + Clock + AllocGlobal>(rt: &R) -> io::Result<()> {
    time_counters(rt)?;
    time_gauges(rt, false)?;
    time_gauges(rt, true)
}
