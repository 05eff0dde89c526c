//! The measures of flushes and readings. Their workers are in one thread.
ghost use Rattle.store_bench.specs.Held.{IsOpened};

use crate::events::Call;
use crate::opening::open;
use crate::party::{Party, parties_of, tell_all};
use crate::sides::Sides;
use crate::timing::{Wanted, no_memory};
use std::io;
use std::io::Print;
use std::sync::Wait;
use std::sync::atomic::AtomicBool;
use std::time::{Clock, Duration, Instant};
use store_opening::Opened;

// The names of a flush and of a reading, how many metrics there are, and how many of them are counters; there are as
// many gauges.
const SIZES: [(&str, &str, u64, usize); 3] = [
    ("flush-4096", "read-4096", 4_096, 1_536),
    ("flush-8192", "read-8192", 8_192, 3_584),
    ("flush-16384", "read-16384", 16_384, 7_680),
];

/// Flushes and readings of which the least time is told.
const ROUNDS: u32 = 5;

// One flush of what all workers recorded, and one reading.
fn round<R: Wait + Clock + AllocGlobal>(
    rt: &R,
    parties: &mut [Party<'_>],
    sides: &mut Sides<'_>,
    histograms: usize,
) -> io::Result<(Duration, Duration)> {
    for party in parties.iter_mut() {
        tell_all(rt, party, Call::Histogram, histograms).map_err(no_memory)?;
    }
    let start = Instant::now(rt)?;
    let _flushed = sides
        .flush(rt, parties, &AtomicBool::new(false))
        .map_err(no_memory)?;
    let flushing = start.elapsed(rt)?;
    let start = Instant::now(rt)?;
    let _read = sides.read(rt).map_err(no_memory)?;
    Ok((flushing, start.elapsed(rt)?))
}

// The least times of a flush and of a reading of so many counters, as many gauges and these histograms.
fn least_of<R: Wait + Clock + AllocGlobal>(
    rt: &R,
    opened: Opened,
    words: usize,
    histograms: usize,
) -> io::Result<(Duration, Duration)>
    requires { IsOpened opened }
{
    let Opened {
        store,
        recorders,
        flusher,
        admin,
    } = opened;
    let mut sides = Sides {
        store: &store,
        flusher,
        admin,
        idle: true,
    };
    let mut parties = parties_of(rt.alloc(), &store, recorders).map_err(no_memory)?;
    if let Some(party) = parties.first_mut() {
        tell_all(rt, party, Call::Counter, words).map_err(no_memory)?;
        tell_all(rt, party, Call::Gauge, words).map_err(no_memory)?;
    }
    let mut least = (Duration::MAX, Duration::MAX);
    for _ in 0..ROUNDS {
        let (flushing, reading) = round(rt, &mut parties, &mut sides, histograms)?;
        least = (least.0.min(flushing), least.1.min(reading));
    }
    Ok(least)
}

pub(crate) fn measure<R: Wait + Clock + Print + AllocGlobal>(
    rt: &R,
    wanted: &Wanted,
) -> io::Result<()> {
    for (flush, read, all, words) in SIZES {
        if wanted.has(flush) || wanted.has(read) {
            let (words, histograms) = if wanted.rounds == 0 {
                (8, 4)
            } else {
                (words, 1_024)
            };
            let opened = open(rt.alloc(), 32).map_err(no_memory)?;
            let (flushing, reading) = least_of(rt, opened, words, histograms)?;
            wanted.print(rt, flush, flushing, all)?;
            wanted.print(rt, read, reading, all)?;
        }
    }
    Ok(())
}
