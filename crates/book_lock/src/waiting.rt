//! How seats wait for the turn.

use stat_defs::NoMemory;
use std::alloc::Global;
use std::hint::spin_loop;
use std::sync::{Mutex, MutexGuard, Wait};
use std::thread::yield_now;

/// The most pauses of the processor between two tries of a seat that has not gone to the front.
const FEW_PAUSES: u32 = 1024;

/// The most pauses between two tries of the seat in front.
const MAX_PAUSES: u32 = 4096;

const _: () = prove!(FEW_PAUSES == 1024);

const _: () = prove!(MAX_PAUSES == 4096);

/// The place before a lock, for one of the seats that wait. It lies apart from what each call of the lock reads.
#[derive(Drop)]
pub struct Front {
    place: Box<Mutex<()>>,
}

impl Front {
    pub fn empty(alloc: Global) -> Result<Front, NoMemory> {
        Ok(Front {
            place: Box::new(alloc, Mutex::new(()))?,
        })
    }
}

/// A seat that waits for the turn.
///
/// Between two tries the processor pauses, each time twice as often, since each try takes the turn's cache line away
/// from the seat that is in. A seat that had no luck for a while goes to the front. Who is in front goes on trying, and
/// those behind it sleep until it has the turn. So of many seats that wait few take processors from the others, and one
/// that makes call after call finds the book in its own core's cache.
#[derive(Drop)]
pub struct Waiter<'a> {
    front: &'a Front,
    in_front: Option<MutexGuard<'a, ()>>,
    pauses: u32,
}

impl<'a> Waiter<'a> {
    pub fn new(front: &'a Front) -> Waiter<'a> {
        Waiter {
            front,
            in_front: None,
            pauses: 1,
        }
    }

    /// Lets the processor pause behind a try in vain, or goes to the front. May wait.
    pub fn pause<R: Wait>(&mut self, rt: &R) {
        for _ in 0..self.pauses {
            spin_loop();
        }
        if self.pauses < FEW_PAUSES {
            self.pauses *= 2;
        } else if self.in_front.is_none() {
            self.in_front = Some(self.front.place.lock(rt));
        } else if self.pauses < MAX_PAUSES {
            self.pauses *= 2;
        } else {
            yield_now();
        }
    }
}
