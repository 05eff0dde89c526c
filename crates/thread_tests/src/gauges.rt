ghost use Rattle.std.specs.Prelude.{◌≡◌, ◌<◌};
ghost use Rattle.metric_words.specs.GaugeLedger.{gauges_id, gauges_size, gauge_known};

use metric_words::{GaugeBank, GaugeSeat, GaugeSeats, MAX_SIZE};
use stat_defs::MetricId;
use std::test::Fail;
use std::thread::{Threads, join};

fn crosses_threads<T: Send + Sync>(_value: &T) {}

#[test]
fn gauges_cross_threads(rt: HostRuntime) -> Result<(), Fail> {
    let (bank, seats) = GaugeBank::new(rt.alloc(), 1, 1)?;
    crosses_threads(&bank);
    crosses_threads(&seats.flusher);
    Ok(())
}

// The greatest bank. The word goes below 0, in two's complement.
#[test]
fn sets_and_subtracts(rt: HostRuntime) -> Result<(), Fail> {
    let (bank, seats) = GaugeBank::new(rt.alloc(), 2, MAX_SIZE)?;
    let GaugeSeats {
        mut workers,
        flusher,
        mut reader,
    } = seats;
    let displaced = bank.set(&mut workers[0], MetricId(0), 9);
    bank.sub(&mut workers[1], MetricId(0), 10);
    bank.add(&mut workers[1], MetricId(65535), 18_446_744_073_709_551_615);
    let value = bank.value(&mut reader, MetricId(0));
    let seats = GaugeSeats {
        workers,
        flusher,
        reader,
    };
    let words = bank.close(rt.alloc(), seats)?;
    let words = words.items();
    assert!(rt; displaced == 0 && value == 18_446_744_073_709_551_615);
    assert!(rt; words.len() == 65536 && words[0] == 18_446_744_073_709_551_615);
    assert!(rt; words[1] == 0 && words[65535] == 18_446_744_073_709_551_615);
    Ok(())
}

#[test]
fn set_set_add(rt: HostRuntime) -> Result<(), Fail> {
    let (bank, seats) = GaugeBank::new(rt.alloc(), 2, 1)?;
    let GaugeSeats {
        mut workers,
        flusher,
        reader,
    } = seats;
    let first = bank.set(&mut workers[0], MetricId(0), 4);
    let second = bank.set(&mut workers[1], MetricId(0), 9);
    bank.add(&mut workers[0], MetricId(0), 1);
    let seats = GaugeSeats {
        workers,
        flusher,
        reader,
    };
    let words = bank.close(rt.alloc(), seats)?;
    assert!(rt; first == 0 && second == 4 && words.items()[0] == 10);
    Ok(())
}

// The last flush takes the workers in, and then reads.
#[test]
fn takes_workers_in(rt: HostRuntime) -> Result<(), Fail> {
    let (bank, seats) = GaugeBank::new(rt.alloc(), 2, 3)?;
    let GaugeSeats {
        mut workers,
        mut flusher,
        reader,
    } = seats;
    bank.set(&mut workers[0], MetricId(2), 4);
    bank.add(&mut workers[1], MetricId(2), 3);
    while let Some(worker) = workers.pop() {
        bank.take_in(&mut flusher, worker);
    }
    let value = bank.value(&mut flusher, MetricId(2));
    let seats = GaugeSeats {
        workers,
        flusher,
        reader,
    };
    let words = bank.close(rt.alloc(), seats)?;
    assert!(rt; value == 7 && words.items()[2] == 7);
    Ok(())
}

fn add_and_set(bank: &GaugeBank, mut seat: GaugeSeat, n: u64) -> GaugeSeat
    requires { ((gauge_known seat).bank ≡ gauges_id bank.now) × (0 < gauges_size bank.now) }
    ensures { (gauge_known result).bank ≡ gauges_id bank.now }
{
    for _ in 0..1000 {
        bank.add(&mut seat, MetricId(0), 1);
    }
    bank.set(&mut seat, MetricId(0), n);
    seat
}

// Two threads that each end with a set.
fn run_two<R: Threads + Sync>(
    rt: &R,
    bank: &GaugeBank,
    first: GaugeSeat,
    second: GaugeSeat,
) -> (GaugeSeat, GaugeSeat)
    requires { ((gauge_known first).bank ≡ gauges_id bank.now) × ((gauge_known second).bank ≡ gauges_id bank.now)
        × (0 < gauges_size bank.now) }
    ensures { ((gauge_known result.0).bank ≡ gauges_id bank.now) × ((gauge_known result.1).bank ≡ gauges_id bank.now) }
{
    join(
        rt,
        move || -> GaugeSeat
            requires { ((gauge_known first).bank ≡ gauges_id bank.now) × (0 < gauges_size bank.now) }
            ensures { (gauge_known result).bank ≡ gauges_id bank.entry.now }
        { add_and_set(bank, first, 7) },
        move || -> GaugeSeat
            requires { ((gauge_known second).bank ≡ gauges_id bank.now) × (0 < gauges_size bank.now) }
            ensures { (gauge_known result).bank ≡ gauges_id bank.entry.now }
        { add_and_set(bank, second, 11) },
    )
}

#[test]
fn threads_end_with_sets(rt: HostRuntime) -> Result<(), Fail> {
    let (bank, seats) = GaugeBank::new(rt.alloc(), 1, 1)?;
    let GaugeSeats {
        workers,
        flusher,
        reader,
    } = seats;
    let (flusher, reader) = run_two(&rt, &bank, flusher, reader);
    let seats = GaugeSeats {
        workers,
        flusher,
        reader,
    };
    let words = bank.close(rt.alloc(), seats)?;
    assert!(rt; words.items()[0] == 7 || words.items()[0] == 11);
    Ok(())
}
