//! Threads that add to counters.
ghost use Rattle.std.specs.Prelude.{◌≡◌, ◌+◌, ◌<◌, ◌≤◌, length, All};
ghost use Rattle.metric_words.specs.CounterLedger.{bank_id, size_of, worker_known, IsNewWorker};
ghost use Rattle.threads_bench.specs.Ready.{IsReady};

use crate::four::four_of;
use metric_words::{CounterBank, WordSeats, WorkerSeat};
use stat_defs::{MetricId, NoMemory};
use std::alloc::Global;
use std::thread::{Threads, join};

/// The numbers of counters that lie so far apart that no two are in one cache line.
const APART: u32 = 16;

/// Who adds to what.
#[derive(Clone, Copy)]
pub enum Shape {
    OneThread,
    OneCounter,
    FourCounters,
}

/// The values of the four counters that may be added to, and what the words of all counters sum up to.
#[derive(Drop)]
pub struct Totals {
    pub values: [u64; 4],
    pub value: u64,
    pub pending: u64,
}

/// Each thread adds 1 so many times.
pub fn run<R: Threads + Sync>(
    rt: &R,
    alloc: Global,
    shape: Shape,
    times: u32,
) -> Result<Totals, NoMemory> {
    let (bank, seats) = CounterBank::new(alloc, 4, 4 * APART)?;
    let WordSeats {
        workers,
        flusher,
        reader,
    } = seats;
    let four = four_of(workers);
    let (first, second, third, fourth) = match shape {
        Shape::OneThread => (
            add_often(&bank, four.0, MetricId(0), times),
            four.1,
            four.2,
            four.3,
        ),
        Shape::OneCounter => add_by_four(rt, &bank, four, 0, times),
        Shape::FourCounters => add_by_four(rt, &bank, four, APART, times),
    };
    let seats = WordSeats {
        workers: vec![in alloc; first, second, third, fourth]?,
        flusher,
        reader,
    };
    let closed = bank.close(alloc, seats)?;
    let values = closed.values.items();
    Ok(Totals {
        values: [
            word_at(values, 0),
            word_at(values, APART),
            word_at(values, 2 * APART),
            word_at(values, 3 * APART),
        ],
        value: sum_of(values),
        pending: sum_of(closed.pending.items()),
    })
}

fn word_at(words: &[u64], id: u32) -> u64 {
    words.get(id as usize).copied().unwrap_or(0)
}

fn sum_of(words: &[u64]) -> u64 {
    words.iter().fold(0u64, |sum, word| sum.wrapping_add(*word))
}

type Four = (WorkerSeat, WorkerSeat, WorkerSeat, WorkerSeat);

// Four threads, with counters so far apart.
fn add_by_four<R: Threads + Sync>(
    rt: &R,
    bank: &CounterBank,
    four: Four,
    apart: u32,
    times: u32,
) -> Four
    requires apart { (apart ≤ 16) × (size_of bank.now ≡ 64) }
    requires ready { IsReady bank.now four.0 0 × IsReady bank.now four.1 0 × IsReady bank.now four.2 0
        × IsReady bank.now four.3 0 }
    ensures { ((worker_known result.0).bank ≡ bank_id bank.now) × ((worker_known result.1).bank ≡ bank_id bank.now)
        × ((worker_known result.2).bank ≡ bank_id bank.now) × ((worker_known result.3).bank ≡ bank_id bank.now) }
{
    let (first, second, third, fourth) = four;
    let ((first, second), (third, fourth)) = join(
        rt,
        move || -> (WorkerSeat, WorkerSeat)
            requires { (apart ≤ 16) × IsReady bank.now first 0 × IsReady bank.now second 0 × (size_of bank.now ≡ 64) }
            ensures { ((worker_known result.0).bank ≡ bank_id bank.entry.now)
                × ((worker_known result.1).bank ≡ bank_id bank.entry.now) }
        { add_by_two(rt, bank, (first, second), (0, apart), times) },
        move || -> (WorkerSeat, WorkerSeat)
            requires { (apart ≤ 16) × IsReady bank.now third 0 × IsReady bank.now fourth 0 × (size_of bank.now ≡ 64) }
            ensures { ((worker_known result.0).bank ≡ bank_id bank.entry.now)
                × ((worker_known result.1).bank ≡ bank_id bank.entry.now) }
        { add_by_two(rt, bank, (third, fourth), (2 * apart, 3 * apart), times) },
    );
    (first, second, third, fourth)
}

fn add_by_two<R: Threads + Sync>(
    rt: &R,
    bank: &CounterBank,
    two: (WorkerSeat, WorkerSeat),
    ids: (u32, u32),
    times: u32,
) -> (WorkerSeat, WorkerSeat)
    requires ready { IsReady bank.now two.0 ids.0 × IsReady bank.now two.1 ids.1 }
    ensures { ((worker_known result.0).bank ≡ bank_id bank.now) × ((worker_known result.1).bank ≡ bank_id bank.now) }
{
    let (first, second) = two;
    join(
        rt,
        move || add_often(bank, first, MetricId(ids.0), times),
        move || add_often(bank, second, MetricId(ids.1), times),
    )
}

fn add_often(bank: &CounterBank, mut seat: WorkerSeat, id: MetricId, times: u32) -> WorkerSeat
    requires ready { IsReady bank.now seat id.0 }
    ensures { (worker_known result).bank ≡ bank_id bank.now }
{
    for _ in 0..times {
        bank.add(&mut seat, id, 1);
    }
    seat
}
