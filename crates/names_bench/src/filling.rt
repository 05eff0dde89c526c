//! A lock round a count.
ghost use Rattle.std.specs.Prelude.{IfOk, IfSome, All};
ghost use Rattle.book_lock.specs.Seats.{lock_id, AtRest};
ghost use Rattle.names_bench.specs.Filled.{IsSeat};

use crate::counts::Counts;
use book_lock::{BookLock, LockSeat, MAX_CHANGES};
use stat_defs::NoMemory;
use std::alloc::Global;
use std::sync::Wait;

/// A lock with one seat, and with room for as many changes as a lock takes.
pub fn new_lock(alloc: Global) -> Result<(BookLock<Counts>, Vec<LockSeat<Counts>>), NoMemory>
    ensures { IfOk result (λ r. All (IsSeat (lock_id r.0)) r.1.items) }
{
    let (lock, seats) = BookLock::new(alloc, Counts::new(alloc), 1, MAX_CHANGES)?;
    Ok((lock, seats))
}

/// The last of these seats, which is the only one.
pub fn one_seat(lock: &BookLock<Counts>, seats: Vec<LockSeat<Counts>>) -> Option<LockSeat<Counts>>
    requires { All (IsSeat (lock_id lock.now)) seats.items }
    ensures { IfSome result (IsSeat (lock_id lock.now)) }
{
    let mut seats = seats;
    seats.pop()
}

/// Enters, makes this number of changes more, where there is room for them, and leaves.
pub fn fill<R: Wait>(rt: &R, lock: &BookLock<Counts>, seat: &mut LockSeat<Counts>, count: u32)
    requires { IsSeat (lock_id lock.now) seat.old }
    ensures { IsSeat (lock_id lock.now) seat.new }
{
    let mut held = lock.enter(rt, seat);
    held.book().make(count);
    lock.leave(seat, held);
}

/// The same, so many times.
pub fn fill_often<R: Wait>(
    rt: &R,
    lock: &BookLock<Counts>,
    seat: &mut LockSeat<Counts>,
    count: u32,
    times: u32,
)
    requires { IsSeat (lock_id lock.now) seat.old }
    ensures { IsSeat (lock_id lock.now) seat.new }
{
    for _ in 0..times {
        fill(rt, lock, seat, count);
    }
}

/// Reads all changes again and again. The result is how many were read.
pub fn read_all(
    alloc: Global,
    lock: &BookLock<Counts>,
    seat: &mut LockSeat<Counts>,
    times: u32,
) -> Result<u64, NoMemory>
    requires { AtRest (lock_id lock.now) seat.old }
    ensures { IfOk result (λ _. AtRest (lock_id lock.now) seat.new) }
{
    let mut sum = 0u64;
    let mut into = Vec::new(alloc);
    for _ in 0..times {
        into.clear();
        lock.read_changes(seat, 0, &mut into)?;
        sum = sum.wrapping_add(into.len() as u64);
    }
    Ok(sum)
}

/// Reads the changes past those that are known again and again.
pub fn read_none(
    alloc: Global,
    lock: &BookLock<Counts>,
    seat: &mut LockSeat<Counts>,
    times: u32,
) -> Result<u64, NoMemory>
    requires { AtRest (lock_id lock.now) seat.old }
{
    let mut into = Vec::new(alloc);
    let mut from = lock.read_changes(seat, 0, &mut into)?;
    into.clear();
    for _ in 0..times {
        from = lock.read_changes(seat, from, &mut into)?;
    }
    Ok(into.len() as u64)
}
