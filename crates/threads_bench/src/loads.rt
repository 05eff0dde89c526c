//! Loads of the number of releases.
ghost use Rattle.std.specs.Prelude.{◌≡◌};
ghost use Rattle.book_lock.specs.Seats.{lock_id, AtRest};

use crate::locks::{new_lock, take_last};
use crate::tally::Tally;
use book_lock::{BookLock, LockSeat};
use stat_defs::NoMemory;
use std::alloc::Global;

/// One thread loads the number of releases so many times. The result is the sum of the numbers.
pub fn run(alloc: Global, times: u32) -> Result<u64, NoMemory> {
    let (lock, mut seats) = new_lock(alloc)?;
    let mut seat = take_last(&lock, &mut seats, 3);
    Ok(load_often(&lock, &mut seat, times))
}

fn load_often(lock: &BookLock<Tally>, seat: &mut LockSeat<Tally>, times: u32) -> u64
    requires { AtRest (lock_id lock.now) seat.old }
{
    let mut sum = 0u64;
    for _ in 0..times {
        sum = sum.wrapping_add(lock.releases(seat));
    }
    sum
}
