//! A worker and a flusher on one cell, in one thread.
ghost use Rattle.std.specs.Prelude.{◌≡◌, ◌≤◌, length};
ghost use Rattle.turn_cell.specs.Tokens.{cell_id, worker_known, idle_known};

use crate::timing::{COUNTED, no_memory, print_per_call};
use stat_defs::{NoMemory, Weighed};
use std::alloc::Global;
use std::io;
use std::time::Instant;
use turn_cell::{FlushIdle, Request, Take, TurnCell, TurnWorker};

/// Rounds of a turn and a take where they are timed.
const TIMED: u32 = 4_000_000;

/// The same of polls, which take much less.
const TIMED_POLLS: u32 = 100_000_000;

/// A half on the heap, of which nothing is counted.
#[derive(Drop)]
pub struct BoxedHalf {
    value: Box<u64>,
}

impl Weighed for BoxedHalf {
    ghost weighs = { λ _. 0 };

    fn weight(&self) -> u64 {
        0
    }
}

/// A cell with its worker's token.
#[derive(Drop)]
struct Polled {
    cell: TurnCell<BoxedHalf>,
    worker: TurnWorker<BoxedHalf>,
    ghost own: { (worker_known worker).cell ≡ cell_id cell },
}

fn make_half(alloc: Global, value: u64) -> Result<BoxedHalf, NoMemory> {
    Ok(BoxedHalf {
        value: Box::new(alloc, value)?,
    })
}

fn make_polled(alloc: Global) -> Result<Polled, NoMemory> {
    let (cell, worker, _) = TurnCell::new(alloc, make_half(alloc, 0)?)?;
    Ok(Polled { cell, worker })
}

// Polls one of two idle cells so many times. Each answer says which one is polled next, so that no load
// begins before the last one has its word.
fn poll_often(alloc: Global, times: u32) -> Result<usize, NoMemory> {
    let mut cells = vec![in alloc; make_polled(alloc)?, make_polled(alloc)?]?;
    Ok(follow(&mut cells, times))
}

fn follow(cells: &mut Vec<Polled>, times: u32) -> usize
    requires { length cells.old.items ≡ 2 }
{
    let mut at = 0usize;
    for _ in 0..times {
        let polled = &mut cells[at];
        at = polled.cell.asked(&mut polled.worker) as usize;
    }
    at
}

// Turns and takes two boxes in turn, so many times. The result is the rounds that were made.
fn exchange_often(alloc: Global, times: u32) -> Result<u32, NoMemory> {
    let (cell, worker, idle) = TurnCell::new(alloc, make_half(alloc, 1)?)?;
    Ok(exchange(&cell, worker, idle, make_half(alloc, 2)?, times))
}

fn exchange(
    cell: &TurnCell<BoxedHalf>,
    mut worker: TurnWorker<BoxedHalf>,
    idle: FlushIdle<BoxedHalf>,
    mine: BoxedHalf,
    times: u32,
) -> u32
    requires { ((worker_known worker).cell ≡ cell_id cell.now) × ((idle_known idle).cell ≡ cell_id cell.now) }
{
    let mut idle = idle;
    let mut mine = mine;
    for round in 0..times {
        let Request::Asked(waiting) = cell.request(idle) else {
            return round;
        };
        if !cell.asked(&mut worker) {
            return round;
        }
        mine = cell.turn(&mut worker, mine);
        let Take::Full(half, holding) = cell.take(waiting) else {
            return round;
        };
        idle = cell.give_back(holding, half);
    }
    times
}

/// Prints what polls and rounds come to.
pub fn count(rt: &HostRuntime) -> io::Result<()> {
    let at = poll_often(rt.alloc(), COUNTED).map_err(no_memory)?;
    println!(rt; "asked: cell {at}")?;
    let rounds = exchange_often(rt.alloc(), COUNTED).map_err(no_memory)?;
    println!(rt; "a turn and a take: {rounds}")
}

/// Prints the time of a poll.
pub fn time_polls(rt: &HostRuntime) -> io::Result<()> {
    let start = Instant::now(rt)?;
    poll_often(rt.alloc(), TIMED_POLLS).map_err(no_memory)?;
    print_per_call(rt, "asked", start, TIMED_POLLS)
}

/// Prints the time of a round.
pub fn time_rounds(rt: &HostRuntime) -> io::Result<()> {
    let start = Instant::now(rt)?;
    exchange_often(rt.alloc(), TIMED).map_err(no_memory)?;
    print_per_call(rt, "a turn and a take", start, TIMED)
}
