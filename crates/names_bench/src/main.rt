//! The changes of names under a lock: one `leave` that publishes as many as a store may make, readings of all of them,
//! readings that find no new one, and turns of the lock that publish one or none. Without words it makes the first three
//! once and prints counts; with any word it repeats them and prints times.
#![tactic(auto)]

mod counts;
mod filling;

use book_lock::MAX_CHANGES;
use filling::{fill, fill_often, new_lock, one_seat, read_all, read_none};
use stat_defs::NoMemory;
use std::alloc::Global;
use std::io::Print;
use std::sync::Wait;
use std::time::{Clock, Instant};
use std::{env, io};

/// How often all of them are read where times are told.
const READINGS: u32 = 1_000;

/// How often no new one is found.
const EMPTY_READINGS: u32 = 100_000_000;

/// How many turns of the lock are timed at once: as many as there is room for changes.
const TURNS: u32 = 131_072;

/// How often they are.
const ROUNDS: u32 = 40;

fn no_memory(_: NoMemory) -> io::Error {
    io::Error::from(io::ErrorKind::OutOfMemory)
}

fn main(rt: HostRuntime) -> io::Result<()> {
    let mut args = env::args(&rt)?;
    args.next();
    if args.next().is_some() {
        return time(&rt, rt.alloc());
    }
    count(&rt, rt.alloc())
}

fn count<R: Print + Wait>(rt: &R, alloc: Global) -> io::Result<()> {
    let (lock, seats) = new_lock(alloc).map_err(no_memory)?;
    let Some(mut seat) = one_seat(&lock, seats) else {
        return Ok(());
    };
    fill(rt, &lock, &mut seat, MAX_CHANGES);
    let read = read_all(alloc, &lock, &mut seat, 1).map_err(no_memory)?;
    let none = read_none(alloc, &lock, &mut seat, 1).map_err(no_memory)?;
    println!(rt; "changes left {MAX_CHANGES}, read {read}, read again {none}")
}

// How long turns that make this number of changes take, on a lock of their own.
fn turns_of<R: Clock + Wait>(rt: &R, alloc: Global, count: u32) -> io::Result<u128> {
    let (lock, seats) = new_lock(alloc).map_err(no_memory)?;
    let Some(mut seat) = one_seat(&lock, seats) else {
        return Ok(u128::MAX);
    };
    let start = Instant::now(rt)?;
    fill_often(rt, &lock, &mut seat, count, TURNS);
    Ok(start.elapsed(rt)?.as_nanos())
}

// Prints the time of turns of the lock that make this number of changes, of the least of some rounds.
fn time_turns<R: Print + Clock + Wait>(rt: &R, alloc: Global, count: u32) -> io::Result<()> {
    let mut least = u128::MAX;
    for _ in 0..ROUNDS {
        least = least.min(turns_of(rt, alloc, count)?);
    }
    println!(rt; "{TURNS} times enter, make {count}, leave: {least} ns")
}

fn time<R: Print + Clock + Wait>(rt: &R, alloc: Global) -> io::Result<()> {
    let (lock, seats) = new_lock(alloc).map_err(no_memory)?;
    let Some(mut seat) = one_seat(&lock, seats) else {
        return Ok(());
    };
    let start = Instant::now(rt)?;
    fill(rt, &lock, &mut seat, MAX_CHANGES);
    let left = start.elapsed(rt)?.as_nanos();
    let start = Instant::now(rt)?;
    let read = read_all(alloc, &lock, &mut seat, READINGS).map_err(no_memory)?;
    let all = start.elapsed(rt)?.as_nanos();
    let start = Instant::now(rt)?;
    let none = read_none(alloc, &lock, &mut seat, EMPTY_READINGS).map_err(no_memory)?;
    let empty = start.elapsed(rt)?.as_nanos();
    println!(rt; "leave with {MAX_CHANGES} changes: {left} ns")?;
    println!(rt; "{READINGS} readings of all: {all} ns, {read} changes")?;
    println!(rt; "{EMPTY_READINGS} readings of none: {empty} ns, {none} changes")?;
    time_turns(rt, alloc, 0)?;
    time_turns(rt, alloc, 1)
}
