//! Gates that hold the threads of a run up until another thread has come to some place.

use run_gates::Gate;
use std::hint::spin_loop;
use std::sync::Wait;
use std::sync::atomic::{AtomicBool, AtomicU64, Ordering};
use std::thread::{Parker, yield_now};
use std::time::Duration;

/// The maximum number of turns that a gate waits for a thread.
const TURNS: u32 = 10_000;

/// How many of these turns yield. Each turn behind them sleeps a millisecond, so that a gate gives up within seconds on
/// a busy machine too.
const YIELDS: u32 = 1_000;

/// The event at which flush 1 may begin.
const SIXTH: u64 = 6;

/// The maximum number of turns that an event waits for a flush, which may itself be waiting for that event. Such a turn
/// does not yield: on a busy machine each yield costs a whole slice of time, and a thousand of them many seconds.
const EVENT_TURNS: u32 = 1_000;

/// The maximum number of milliseconds that an event sleeps after these turns, so that the flusher gets a processor.
const EVENT_SLEEP: u64 = 4;

/// Whether a gate has waited in vain. Then it holds no more, so that the run ends and its test says so.
#[derive(Drop)]
pub(crate) struct Patience {
    turns: u32,
    lost: AtomicBool,
    napping: Parker,
}

impl Patience {
    fn new() -> Patience {
        Patience::of(TURNS)
    }

    // The patience of this number of turns.
    fn of(turns: u32) -> Patience {
        Patience {
            turns,
            lost: AtomicBool::new(false),
            napping: Parker::new(),
        }
    }

    pub(crate) fn is_lost(&self) -> bool {
        self.lost.load(Ordering::SeqCst)
    }

    fn rest<R: Wait>(&self, rt: &R, turn: u32) {
        if turn < YIELDS {
            yield_now();
        } else {
            self.napping.park_timeout(rt, Duration::from_millis(1));
        }
    }

    // Waits until the flag is set.
    fn wait_for<R: Wait>(&self, rt: &R, flag: &AtomicBool) {
        for turn in 0..self.turns {
            if flag.load(Ordering::SeqCst) || self.is_lost() {
                return;
            }
            self.rest(rt, turn);
        }
        self.lost.store(true, Ordering::SeqCst);
    }

    // Waits until the count stands there.
    fn wait_for_turn<R: Wait>(&self, rt: &R, count: &AtomicU64, place: u64) {
        for turn in 0..self.turns {
            if count.load(Ordering::SeqCst) == place || self.is_lost() {
                return;
            }
            self.rest(rt, turn);
        }
        self.lost.store(true, Ordering::SeqCst);
    }
}

/// Holds every other worker until this one is done.
#[derive(Drop)]
pub(crate) struct OneFirst {
    pub(crate) patience: Patience,
    first: u32,
    first_done: AtomicBool,
}

impl OneFirst {
    pub(crate) fn new(first: u32) -> OneFirst {
        OneFirst {
            patience: Patience::new(),
            first,
            first_done: AtomicBool::new(false),
        }
    }

    /// The same, which gives up at once.
    pub(crate) fn in_a_hurry(first: u32) -> OneFirst {
        OneFirst {
            patience: Patience::of(1),
            first,
            first_done: AtomicBool::new(false),
        }
    }
}

impl Gate for OneFirst {
    fn worker_at<R: Wait>(&self, rt: &R, worker: u32, _event: u64) {
        if worker != self.first {
            self.patience.wait_for(rt, &self.first_done);
        }
    }

    fn worker_done<R: Wait>(&self, _rt: &R, worker: u32) {
        if worker == self.first {
            self.first_done.store(true, Ordering::SeqCst);
        }
    }

    fn flusher_at<R: Wait>(&self, _rt: &R, _round: u32) {}

    fn reader_at<R: Wait>(&self, _rt: &R, _round: u32) {}
}

/// The number of events that a worker does in one turn.
const STRETCH: u64 = 10;

/// Lets the workers, which all have the same number of events, do ten of them in turn. A thread that waits for its next
/// event has done the one before.
#[derive(Drop)]
pub(crate) struct InTurn {
    pub(crate) patience: Patience,
    workers: u64,
    turns: AtomicU64,
}

impl InTurn {
    pub(crate) fn new(workers: u64) -> InTurn {
        InTurn {
            patience: Patience::new(),
            workers,
            turns: AtomicU64::new(0),
        }
    }
}

impl Gate for InTurn {
    fn worker_at<R: Wait>(&self, rt: &R, worker: u32, event: u64) {
        let before = event.wrapping_sub(1);
        if before % STRETCH != 0 {
            return;
        }
        if before > 0 {
            self.turns.fetch_add(1, Ordering::SeqCst);
        }
        let round = (before / STRETCH).wrapping_mul(self.workers);
        let turn = round.wrapping_add(u64::from(worker)).wrapping_sub(1);
        self.patience.wait_for_turn(rt, &self.turns, turn);
    }

    fn worker_done<R: Wait>(&self, _rt: &R, _worker: u32) {
        self.turns.fetch_add(1, Ordering::SeqCst);
    }

    fn flusher_at<R: Wait>(&self, _rt: &R, _round: u32) {}

    fn reader_at<R: Wait>(&self, _rt: &R, _round: u32) {}
}

/// Holds each flush and each reading until the one worker is done.
#[derive(Drop)]
pub(crate) struct WorkerFirst {
    pub(crate) patience: Patience,
    done: AtomicBool,
}

impl WorkerFirst {
    pub(crate) fn new() -> WorkerFirst {
        WorkerFirst {
            patience: Patience::new(),
            done: AtomicBool::new(false),
        }
    }
}

impl Gate for WorkerFirst {
    fn worker_at<R: Wait>(&self, _rt: &R, _worker: u32, _event: u64) {}

    fn worker_done<R: Wait>(&self, _rt: &R, _worker: u32) {
        self.done.store(true, Ordering::SeqCst);
    }

    fn flusher_at<R: Wait>(&self, rt: &R, _round: u32) {
        self.patience.wait_for(rt, &self.done);
    }

    fn reader_at<R: Wait>(&self, rt: &R, _round: u32) {
        self.patience.wait_for(rt, &self.done);
    }
}

/// Makes reading 1 between the first and the second event of the one worker. A thread that waits for its next step has
/// done the one before.
#[derive(Drop)]
pub(crate) struct ReadingBetween {
    pub(crate) patience: Patience,
    second_event: AtomicBool,
    second_reading: AtomicBool,
}

impl ReadingBetween {
    pub(crate) fn new() -> ReadingBetween {
        ReadingBetween {
            patience: Patience::new(),
            second_event: AtomicBool::new(false),
            second_reading: AtomicBool::new(false),
        }
    }
}

impl Gate for ReadingBetween {
    fn worker_at<R: Wait>(&self, rt: &R, _worker: u32, event: u64) {
        if event == 2 {
            self.second_event.store(true, Ordering::SeqCst);
            self.patience.wait_for(rt, &self.second_reading);
        }
    }

    fn worker_done<R: Wait>(&self, _rt: &R, _worker: u32) {}

    fn flusher_at<R: Wait>(&self, _rt: &R, _round: u32) {}

    fn reader_at<R: Wait>(&self, rt: &R, round: u32) {
        match round {
            1 => self.patience.wait_for(rt, &self.second_event),
            _ => self.second_reading.store(true, Ordering::SeqCst),
        }
    }
}

/// Makes flush 1 behind the fifth event of the one worker, and holds the worker up so that the flush ends before the
/// worker is done. A flush needs events to go on, since a worker turns its half before an event. So each event from the
/// sixth on waits for the end of flush 1, but only for a while.
#[derive(Drop)]
pub(crate) struct FlushAmong {
    pub(crate) patience: Patience,
    sixth_event: AtomicBool,
    second_flush: AtomicBool,
    waking: Parker,
    among: AtomicBool,
}

impl FlushAmong {
    pub(crate) fn new() -> FlushAmong {
        FlushAmong {
            patience: Patience::new(),
            sixth_event: AtomicBool::new(false),
            second_flush: AtomicBool::new(false),
            waking: Parker::new(),
            among: AtomicBool::new(false),
        }
    }

    /// Whether the flusher came to its second flush before the worker was done.
    pub(crate) fn was_among(&self) -> bool {
        self.among.load(Ordering::SeqCst)
    }

    fn is_flushed(&self) -> bool {
        self.second_flush.load(Ordering::SeqCst)
    }

    fn wait_a_while<R: Wait>(&self, rt: &R) {
        for _ in 0..EVENT_TURNS {
            if self.is_flushed() {
                return;
            }
            spin_loop();
        }
        self.waking
            .park_timeout(rt, Duration::from_millis(EVENT_SLEEP));
    }
}

impl Gate for FlushAmong {
    fn worker_at<R: Wait>(&self, rt: &R, _worker: u32, event: u64) {
        if event >= SIXTH {
            self.sixth_event.store(true, Ordering::SeqCst);
            self.wait_a_while(rt);
        }
    }

    fn worker_done<R: Wait>(&self, _rt: &R, _worker: u32) {
        self.among.store(self.is_flushed(), Ordering::SeqCst);
    }

    fn flusher_at<R: Wait>(&self, rt: &R, round: u32) {
        match round {
            1 => self.patience.wait_for(rt, &self.sixth_event),
            _ => {
                self.second_flush.store(true, Ordering::SeqCst);
                self.waking.unpark();
            }
        }
    }

    fn reader_at<R: Wait>(&self, _rt: &R, _round: u32) {}
}
