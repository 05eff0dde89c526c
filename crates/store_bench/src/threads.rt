//! Calls of recorders, by one thread or several.
ghost use Rattle.stat_defs.specs.Borrowed.{event_of};
ghost use Rattle.stat_defs.specs.Events.{IsLawfulEvent};

use crate::events::{Call, event};
use crate::party::{Party, name_of};
use stat_defs::EventRef;
use std::io;
use std::sync::Wait;
use std::sync::atomic::{AtomicU64, Ordering};
use std::thread::{Threads, for_each_chunk_mut};
use std::time::{Clock, Duration, Instant};

/// A recorder makes so many calls at a time.
const AT_A_TIME: u32 = 1_000;

/// So many recorders of a thread take turns, since one is given few events.
pub(crate) const EACH: u32 = 8;

/// Metrics that threads may call on. Those of two threads are 16 numbers apart, so that they are not in one cache line.
pub(crate) const METRICS: usize = 64;

/// Threads whose recorders make a call, so many times a thousand. All call on one metric, or each thread on its own.
#[derive(Clone, Copy, Drop)]
pub(crate) struct Plan {
    pub(crate) call: Call,
    pub(crate) threads: u32,
    pub(crate) shared: bool,
    pub(crate) rounds: u32,
}

fn call_often<R: Wait + AllocGlobal>(
    rt: &R,
    party: &mut Party<'_>,
    call: Call,
    event: &EventRef<'_>,
) -> u32
    requires { IsLawfulEvent (event_of event.now) }
{
    let mut done = 0u32;
    for _ in 0..AT_A_TIME {
        done = done.wrapping_add(u32::from(party.call(rt, call, event)));
    }
    done
}

// All calls of the thread whose recorders begin at this place, and how many of them did what was asked.
fn call_in_turn<R: Wait + AllocGlobal>(
    rt: &R,
    parties: &mut [Party<'_>],
    plan: &Plan,
    start: usize,
) -> u64 {
    let number = if plan.shared {
        0
    } else {
        start.wrapping_mul(2)
    };
    let Ok(name) = name_of(rt.alloc(), number) else {
        return 0;
    };
    let Some(event) = event(plan.call, name.as_bytes(), 1) else {
        return 0;
    };
    let mut done = 0u64;
    for _ in 0..plan.rounds {
        for party in parties.iter_mut() {
            done = done.wrapping_add(u64::from(call_often(rt, party, plan.call, &event)));
        }
    }
    done
}

/// Makes all calls, and tells how long they took and how many of them did what was asked.
pub(crate) fn call_all<R: Threads + Wait + Sync + Clock + AllocGlobal>(
    rt: &R,
    mut parties: Vec<Party<'_>>,
    plan: &Plan,
) -> io::Result<(Duration, u64)> {
    let done = AtomicU64::new(0);
    let start = Instant::now(rt)?;
    for_each_chunk_mut(
        rt,
        parties.as_mut_slice(),
        EACH as usize,
        &|start, chunk| {
            done.fetch_add(call_in_turn(rt, chunk, plan, start), Ordering::SeqCst);
        },
    );
    Ok((start.elapsed(rt)?, done.load(Ordering::SeqCst)))
}
