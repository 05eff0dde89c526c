//! The time of a call.
ghost use Rattle.std.specs.Prelude.{◌≤◌};

use stat_defs::NoMemory;
use std::io;
use std::io::Print;
use std::time::{Clock, Duration, Instant};

/// How often a call is made where it is counted, by each thread.
pub const COUNTED: u32 = 1_000;

// Picoseconds of a thread's time per call.
fn per_call(time: Duration, times: u32) -> u128
    requires { 1000 ≤ times }
{
    time.as_nanos() / (times as u128 / 1000)
}

/// Prints the time per call of so many calls that began then.
pub fn print_per_call<R: Print + Clock>(
    rt: &R,
    name: &str,
    start: Instant,
    times: u32,
) -> io::Result<()>
    requires { 1000 ≤ times }
{
    let picoseconds = per_call(start.elapsed(rt)?, times);
    println!(rt;
        "{name}: {}.{:03} ns",
        picoseconds / 1000,
        picoseconds % 1000
    )
}

pub fn no_memory(_: NoMemory) -> io::Error {
    io::Error::from(io::ErrorKind::OutOfMemory)
}
