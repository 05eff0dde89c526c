//! Threads that step on one gauge.
ghost use Rattle.std.specs.Prelude.{◌≡◌, ◌+◌, ◌<◌, length, All};
ghost use Rattle.metric_words.specs.GaugeLedger.{gauges_id, gauge_known, IsNewGauge};
ghost use Rattle.threads_bench.specs.Ready.{IsGaugeReady};

use crate::four::four_of;
use metric_words::{GaugeBank, GaugeSeat, GaugeSeats};
use stat_defs::{MetricId, NoMemory};
use std::alloc::Global;
use std::thread::{Threads, join};

/// What is called, on gauge 0 where the call does not say another.
#[derive(Clone, Copy)]
pub enum Call {
    Add,
    Sub,
    Set,
    /// Each reading says which gauge is read next, so that no reading begins before the last one has its word.
    Value,
    /// Readings that wait for nothing, so that several are under way at once. They are only added up.
    ValuesInARow,
}

const SIZE: u32 = 16;

const ID: MetricId = MetricId(0);

/// One thread or four make the call so many times each. The result is the last word.
pub fn run<R: Threads + Sync>(
    rt: &R,
    alloc: Global,
    call: Call,
    four: bool,
    times: u32,
) -> Result<u64, NoMemory> {
    let (bank, seats) = GaugeBank::new(alloc, 4, SIZE)?;
    let GaugeSeats {
        workers,
        flusher,
        reader,
    } = seats;
    let (first, second, third, fourth) = four_of(workers);
    let (first, second, third, fourth) = if four {
        call_by_four(rt, &bank, (first, second, third, fourth), call, times)
    } else {
        (call_often(&bank, first, call, times), second, third, fourth)
    };
    let seats = GaugeSeats {
        workers: vec![in alloc; first, second, third, fourth]?,
        flusher,
        reader,
    };
    let words = bank.close(alloc, seats)?;
    Ok(words.items()[0])
}

type Four = (GaugeSeat, GaugeSeat, GaugeSeat, GaugeSeat);

fn call_by_four<R: Threads + Sync>(
    rt: &R,
    bank: &GaugeBank,
    four: Four,
    call: Call,
    times: u32,
) -> Four
    requires { IsGaugeReady bank.now four.0 × IsGaugeReady bank.now four.1 × IsGaugeReady bank.now four.2
        × IsGaugeReady bank.now four.3 }
    ensures { ((gauge_known result.0).bank ≡ gauges_id bank.now) × ((gauge_known result.1).bank ≡ gauges_id bank.now)
        × ((gauge_known result.2).bank ≡ gauges_id bank.now) × ((gauge_known result.3).bank ≡ gauges_id bank.now) }
{
    let (first, second, third, fourth) = four;
    let ((first, second), (third, fourth)) = join(
        rt,
        move || -> (GaugeSeat, GaugeSeat)
            requires { IsGaugeReady bank.now first × IsGaugeReady bank.now second }
            ensures { ((gauge_known result.0).bank ≡ gauges_id bank.entry.now)
                × ((gauge_known result.1).bank ≡ gauges_id bank.entry.now) }
        { call_by_two(rt, bank, (first, second), call, times) },
        move || -> (GaugeSeat, GaugeSeat)
            requires { IsGaugeReady bank.now third × IsGaugeReady bank.now fourth }
            ensures { ((gauge_known result.0).bank ≡ gauges_id bank.entry.now)
                × ((gauge_known result.1).bank ≡ gauges_id bank.entry.now) }
        { call_by_two(rt, bank, (third, fourth), call, times) },
    );
    (first, second, third, fourth)
}

fn call_by_two<R: Threads + Sync>(
    rt: &R,
    bank: &GaugeBank,
    two: (GaugeSeat, GaugeSeat),
    call: Call,
    times: u32,
) -> (GaugeSeat, GaugeSeat)
    requires { IsGaugeReady bank.now two.0 × IsGaugeReady bank.now two.1 }
    ensures { ((gauge_known result.0).bank ≡ gauges_id bank.now) × ((gauge_known result.1).bank ≡ gauges_id bank.now) }
{
    let (first, second) = two;
    join(
        rt,
        move || call_often(bank, first, call, times),
        move || call_often(bank, second, call, times),
    )
}

fn call_often(bank: &GaugeBank, seat: GaugeSeat, call: Call, times: u32) -> GaugeSeat
    requires { IsGaugeReady bank.now seat }
    ensures { (gauge_known result).bank ≡ gauges_id bank.now }
{
    match call {
        Call::Add => add_often(bank, seat, times),
        Call::Sub => sub_often(bank, seat, times),
        Call::Set => set_often(bank, seat, times),
        Call::Value => follow_often(bank, seat, times),
        Call::ValuesInARow => read_often(bank, seat, times),
    }
}

fn add_often(bank: &GaugeBank, mut seat: GaugeSeat, times: u32) -> GaugeSeat
    requires { IsGaugeReady bank.now seat }
    ensures { (gauge_known result).bank ≡ gauges_id bank.now }
{
    for _ in 0..times {
        bank.add(&mut seat, ID, 1);
    }
    seat
}

fn sub_often(bank: &GaugeBank, mut seat: GaugeSeat, times: u32) -> GaugeSeat
    requires { IsGaugeReady bank.now seat }
    ensures { (gauge_known result).bank ≡ gauges_id bank.now }
{
    for _ in 0..times {
        bank.sub(&mut seat, ID, 1);
    }
    seat
}

fn set_often(bank: &GaugeBank, mut seat: GaugeSeat, times: u32) -> GaugeSeat
    requires { IsGaugeReady bank.now seat }
    ensures { (gauge_known result).bank ≡ gauges_id bank.now }
{
    for _ in 0..times {
        bank.set(&mut seat, ID, 7);
    }
    seat
}

// All words are 0 and so name gauge 0, which no compiler knows. The last one is added at the end, so that it is used.
fn follow_often(bank: &GaugeBank, mut seat: GaugeSeat, times: u32) -> GaugeSeat
    requires { IsGaugeReady bank.now seat }
    ensures { (gauge_known result).bank ≡ gauges_id bank.now }
{
    let mut word = 0u64;
    for _ in 0..times {
        let id = MetricId((word % SIZE as u64) as u32);
        word = bank.value(&mut seat, id);
    }
    bank.add(&mut seat, ID, word);
    seat
}

// The sum of the readings, which is 0, is added at the end, so that no compiler leaves a reading out.
fn read_often(bank: &GaugeBank, mut seat: GaugeSeat, times: u32) -> GaugeSeat
    requires { IsGaugeReady bank.now seat }
    ensures { (gauge_known result).bank ≡ gauges_id bank.now }
{
    let mut sum = 0u64;
    for _ in 0..times {
        sum = sum.wrapping_add(bank.value(&mut seat, ID));
    }
    bank.add(&mut seat, ID, sum);
    seat
}
