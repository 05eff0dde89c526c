ghost use Rattle.std.specs.Prelude.{◌≡◌, ◌<◌, ◌≤◌, []};
ghost use Rattle.metric_words.specs.CounterLedger.{bank_id, size_of, worker_known, flush_known};

use metric_words::{CounterBank, FlushSeat, MAX_SIZE, WordSeats, WorkerSeat};
use stat_defs::MetricId;
use std::test::Fail;
use std::thread::{Threads, join};

fn crosses_threads<T: Send + Sync>(_value: &T) {}

#[test]
fn bank_and_seats_cross_threads(rt: HostRuntime) -> Result<(), Fail> {
    let (bank, seats) = CounterBank::new(rt.alloc(), 1, 1)?;
    crosses_threads(&bank);
    crosses_threads(&seats.workers[0]);
    crosses_threads(&seats.flusher);
    crosses_threads(&seats.reader);
    Ok(())
}

// The greatest bank. The last counter has the last two words.
#[test]
fn adds_latches_and_loads(rt: HostRuntime) -> Result<(), Fail> {
    let (bank, seats) = CounterBank::new(rt.alloc(), 2, MAX_SIZE)?;
    let WordSeats {
        mut workers,
        mut flusher,
        mut reader,
    } = seats;
    let id = MetricId(0);
    bank.add(&mut workers[0], id, 5);
    bank.add(&mut workers[1], id, 7);
    bank.add(&mut workers[1], MetricId(65535), 9);
    let first = bank.latch(&mut flusher, id);
    let second = bank.latch(&mut flusher, id);
    let value = bank.value(&mut reader, id);
    bank.add(&mut workers[0], id, 3);
    let closed = bank.close(
        rt.alloc(),
        WordSeats {
            workers,
            flusher,
            reader,
        },
    )?;
    assert!(rt; first == 12 && second == 0 && value == 12);
    let values = closed.values.items();
    let pending = closed.pending.items();
    assert!(rt; values.len() == 65536 && values[0] == 15 && values[1] == 0 && values[65535] == 9);
    assert!(rt;
        pending.len() == 65536 && pending[0] == 3 && pending[1] == 0 && pending[65535] == 9
    );
    Ok(())
}

// The last flush takes the workers in, and then latches: nothing is pending afterwards.
#[test]
fn takes_workers_in(rt: HostRuntime) -> Result<(), Fail> {
    let (bank, seats) = CounterBank::new(rt.alloc(), 2, 3)?;
    let WordSeats {
        mut workers,
        mut flusher,
        reader,
    } = seats;
    bank.add(&mut workers[0], MetricId(2), 4_294_967_295);
    bank.add(&mut workers[1], MetricId(2), 1);
    while let Some(worker) = workers.pop() {
        bank.take_in(&mut flusher, worker);
    }
    let latched = bank.latch(&mut flusher, MetricId(2));
    let closed = bank.close(
        rt.alloc(),
        WordSeats {
            workers,
            flusher,
            reader,
        },
    )?;
    assert!(rt; latched == 4_294_967_296);
    assert!(rt; closed.values.items()[2] == 4_294_967_296 && closed.pending.items()[2] == 0);
    Ok(())
}

fn add_often(bank: &CounterBank, mut seat: WorkerSeat, n: u32, times: u32) -> WorkerSeat
    requires bank { ((worker_known seat).bank ≡ bank_id bank.now) × (0 < size_of bank.now) }
    requires units { ((worker_known seat).own.steps ≡ []) × (times ≤ 131072) }
    ensures { (worker_known result).bank ≡ bank_id bank.now }
{
    for _ in 0..times {
        bank.add(&mut seat, MetricId(0), n);
    }
    seat
}

fn latch_often(bank: &CounterBank, mut seat: FlushSeat, times: u32) -> (FlushSeat, u64)
    requires bank { ((flush_known seat).bank ≡ bank_id bank.now) × (0 < size_of bank.now) }
    ensures bank { ((flush_known result.0).bank ≡ bank_id bank.now) × ((flush_known result.0).taken ≡ (flush_known seat).taken) }
{
    let mut total = 0u64;
    for _ in 0..times {
        total = total.wrapping_add(bank.latch(&mut seat, MetricId(0)));
    }
    (seat, total)
}

// Two threads add to one counter while a third one latches it.
fn run_three<R: Threads + Sync>(
    rt: &R,
    bank: &CounterBank,
    first: WorkerSeat,
    second: WorkerSeat,
    flusher: FlushSeat,
) -> ((WorkerSeat, WorkerSeat), (FlushSeat, u64))
    requires bank { ((worker_known first).bank ≡ bank_id bank.now) × ((worker_known second).bank ≡ bank_id bank.now)
        × ((flush_known flusher).bank ≡ bank_id bank.now) × (0 < size_of bank.now) }
    requires steps { ((worker_known first).own.steps ≡ []) × ((worker_known second).own.steps ≡ []) × ((flush_known flusher).taken ≡ []) }
    ensures workers { ((worker_known result.0.0).bank ≡ bank_id bank.now) × ((worker_known result.0.1).bank ≡ bank_id bank.now) }
    ensures flusher { ((flush_known result.1.0).bank ≡ bank_id bank.now) × ((flush_known result.1.0).taken ≡ []) }
{
    join(
        rt,
        move || -> (WorkerSeat, WorkerSeat)
            requires { ((worker_known first).bank ≡ bank_id bank.now) × ((worker_known second).bank ≡ bank_id bank.now) × (0 < size_of bank.now) × ((worker_known first).own.steps ≡ []) × ((worker_known second).own.steps ≡ []) }
            ensures { ((worker_known result.0).bank ≡ bank_id bank.entry.now) × ((worker_known result.1).bank ≡ bank_id bank.entry.now) }
        {
            join(
                rt,
                move || -> WorkerSeat
                    requires { ((worker_known first).bank ≡ bank_id bank.now) × (0 < size_of bank.now) × ((worker_known first).own.steps ≡ []) }
                    ensures { (worker_known result).bank ≡ bank_id bank.entry.now }
                { add_often(bank, first, 5, 1000) },
                move || -> WorkerSeat
                    requires { ((worker_known second).bank ≡ bank_id bank.now) × (0 < size_of bank.now) × ((worker_known second).own.steps ≡ []) }
                    ensures { (worker_known result).bank ≡ bank_id bank.entry.now }
                { add_often(bank, second, 7, 1000) },
            )
        },
        move || -> (FlushSeat, u64)
            requires { ((flush_known flusher).bank ≡ bank_id bank.now) × (0 < size_of bank.now) × ((flush_known flusher).taken ≡ []) }
            ensures { ((flush_known result.0).bank ≡ bank_id bank.entry.now) × ((flush_known result.0).taken ≡ []) }
        { latch_often(bank, flusher, 1000) },
    )
}

#[test]
fn threads_add_while_one_latches(rt: HostRuntime) -> Result<(), Fail> {
    let (bank, seats) = CounterBank::new(rt.alloc(), 2, 4)?;
    let WordSeats {
        mut workers,
        flusher,
        mut reader,
    } = seats;
    let Some(second) = workers.pop() else {
        panic!(rt; "no seat")
    };
    let Some(first) = workers.pop() else {
        panic!(rt; "no seat")
    };
    let ((first, second), (flusher, latched)) = run_three(&rt, &bank, first, second, flusher);
    let value = bank.value(&mut reader, MetricId(0));
    workers.push(first)?;
    workers.push(second)?;
    let closed = bank.close(
        rt.alloc(),
        WordSeats {
            workers,
            flusher,
            reader,
        },
    )?;
    assert!(rt; value == 12_000 && closed.values.items()[0] == 12_000);
    assert!(rt; latched.wrapping_add(closed.pending.items()[0]) == 12_000);
    Ok(())
}
