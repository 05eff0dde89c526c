//! A worker whose file ends while the flusher waits for its half.
ghost use Rattle.stats_io.specs.MemSource.{as_sure_source};

use crate::runs::{run, units_of};
use run_gates::Gate;
use stat_defs::MetricId;
use stats_io::{Pull, Source, SureSource};
use std::sync::Wait;
use std::sync::atomic::{AtomicBool, Ordering};
use std::test::Fail;
use std::thread::yield_now;
use worker_run::Given;

const A_FLUSH: &str =
    r#"{"stats_config":{"use_all_default_tags":false},"stats_run":{"flushes":1}}"#;

/// The maximum number of turns in which one thread waits for the other.
const TURNS: u32 = 1_000_000;

/// Turns behind the beginning of the flush: by then the flusher waits for the worker.
const TURNS_BEHIND: u32 = 10_000;

// Lets other threads run until the flag is set.
fn await_flag(flag: &AtomicBool) {
    for _ in 0..TURNS {
        if flag.load(Ordering::SeqCst) {
            return;
        }
        yield_now();
    }
}

/// A source that comes to its end once the flush has begun.
#[derive(Drop)]
struct EndsLate<'a> {
    source: SureSource,
    is_read: &'a AtomicBool,
    has_begun: &'a AtomicBool,
}

impl<'a> Source for EndsLate<'a> {
    ghost state = { λ late. as_sure_source late.source };

    fn pull(&mut self, into: &mut [u8]) -> Pull {
        let pull = self.source.pull(into);
        if let Pull::End = pull {
            self.is_read.store(true, Ordering::SeqCst);
            await_flag(self.has_begun);
            for _ in 0..TURNS_BEHIND {
                yield_now();
            }
        }
        pull
    }

    fn fault_count(&self) -> u64 {
        self.source.fault_count()
    }
}

/// The flush begins once the worker has done its events.
#[derive(Drop)]
struct FlushAtEnd<'a> {
    is_read: &'a AtomicBool,
    has_begun: &'a AtomicBool,
}

impl<'a> Gate for FlushAtEnd<'a> {
    fn worker_at<R: Wait>(&self, _rt: &R, _worker: u32, _event: u64) {}

    fn worker_done<R: Wait>(&self, _rt: &R, _worker: u32) {}

    fn flusher_at<R: Wait>(&self, _rt: &R, _round: u32) {
        await_flag(self.is_read);
        self.has_begun.store(true, Ordering::SeqCst);
    }

    fn reader_at<R: Wait>(&self, _rt: &R, _round: u32) {}
}

// The worker polls no more, and leaves its cell: a flusher that sleeps until the half is turned has to be woken then.
#[test]
fn a_worker_that_ends_wakes_the_flusher(rt: HostRuntime) -> Result<(), Fail> {
    let alloc = rt.alloc();
    let is_read = AtomicBool::new(false);
    let has_begun = AtomicBool::new(false);
    let gate = FlushAtEnd {
        is_read: &is_read,
        has_begun: &has_begun,
    };
    let bytes = "inc root a 3\n".as_bytes().to_vec(alloc)?;
    let source = EndsLate {
        source: SureSource::new(String::new(alloc), bytes, 4_096),
        is_read: &is_read,
        has_begun: &has_begun,
    };
    let files = vec![in alloc; Given::Opened(source)]?;
    let report = run(&rt, alloc, &gate, A_FLUSH, files)?;
    assert!(rt; report.flushes.items().len() == 2);
    assert!(rt; units_of(report.flushes.items(), MetricId(0)) == 3);
    drop(report);
    Ok(())
}
