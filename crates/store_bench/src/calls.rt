//! The measures of calls.
ghost use Rattle.store_bench.specs.Held.{IsOpened};

use crate::events::Call;
use crate::opening::open;
use crate::party::{Party, parties_of, tell_all};
use crate::sides::{Sides, go_round};
use crate::threads::{EACH, METRICS, Plan, call_all};
use crate::timing::{Wanted, no_memory};
use std::io;
use std::io::Print;
use std::sync::Wait;
use std::sync::atomic::{AtomicBool, Ordering};
use std::thread::{Threads, join};
use std::time::{Clock, Duration};
use store_opening::Opened;

// Each with its call and its threads, and whether these share one metric and have a flusher and a reader beside them.
const CALLS: [(&str, Call, u32, bool, bool); 11] = [
    ("counter", Call::Counter, 1, false, false),
    ("gauge", Call::Gauge, 1, false, false),
    ("histogram", Call::Histogram, 1, false, false),
    ("poll", Call::Poll, 1, false, false),
    ("event", Call::Work, 1, false, false),
    ("counter-2", Call::Counter, 2, false, false),
    ("counter-4", Call::Counter, 4, false, false),
    ("counter-2-shared", Call::Counter, 2, true, false),
    ("counter-4-shared", Call::Counter, 4, true, false),
    ("event-4", Call::Work, 4, false, false),
    ("event-4-beside", Call::Work, 4, false, true),
];

// Makes all calls, with these beside them.
fn call_beside<R: Threads + Wait + Sync + Clock + AllocGlobal>(
    rt: &R,
    parties: Vec<Party<'_>>,
    sides: Sides<'_>,
    plan: &Plan,
) -> io::Result<(Duration, u64)> {
    let stop = AtomicBool::new(false);
    let (told, _) = join(
        rt,
        || {
            let told = call_all(rt, parties, plan);
            stop.store(true, Ordering::SeqCst);
            told
        },
        || go_round(rt, sides, &stop),
    );
    told
}

fn call_with<R: Threads + Wait + Sync + Clock + AllocGlobal>(
    rt: &R,
    opened: Opened,
    plan: &Plan,
    beside: bool,
) -> io::Result<(Duration, u64)>
    requires { IsOpened opened }
{
    let Opened {
        store,
        recorders,
        flusher,
        admin,
    } = opened;
    let mut parties = parties_of(rt.alloc(), &store, recorders).map_err(no_memory)?;
    for party in parties.iter_mut() {
        tell_all(rt, party, plan.call, METRICS).map_err(no_memory)?;
    }
    if !beside {
        return call_all(rt, parties, plan);
    }
    let sides = Sides {
        store: &store,
        flusher,
        admin,
        idle: true,
    };
    call_beside(rt, parties, sides, plan)
}

pub(crate) fn measure<R: Threads + Wait + Sync + Clock + Print + AllocGlobal>(
    rt: &R,
    wanted: &Wanted,
) -> io::Result<()> {
    for (name, call, threads, shared, beside) in CALLS {
        if wanted.has(name) {
            let plan = Plan {
                call,
                threads,
                shared,
                rounds: wanted.rounds.max(1),
            };
            let workers = threads.wrapping_mul(EACH).clamp(1, 32);
            let opened = open(rt.alloc(), workers).map_err(no_memory)?;
            let (time, done) = call_with(rt, opened, &plan, beside)?;
            wanted.print(rt, name, time, done / u64::from(threads.max(1)))?;
        }
    }
    Ok(())
}
