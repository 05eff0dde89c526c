//! How much of a file is taken when its first event comes, and that it is not read on behind its end.
ghost use Rattle.stats_io.specs.MemSource.{as_sure_source};

use crate::runs::{repeated, run};
use run_gates::Gate;
use stats_io::{Pull, Source, SureSource};
use std::sync::Wait;
use std::sync::atomic::{AtomicU64, Ordering};
use std::test::Fail;
use worker_run::Given;

const LINE: &str = "inc root ab 1\n";

const LINES: u32 = 7_000;

const LINE_BYTES: u64 = 14;

// The bytes of a line but one, and those of a pull.
const MOST_AT_FIRST: u64 = 4_109;

/// A source that adds what is taken of it to a word, and the pulls behind its end to another.
#[derive(Drop)]
struct Metered<'a> {
    source: SureSource,
    has_ended: bool,
    taken: &'a AtomicU64,
    late: &'a AtomicU64,
}

impl<'a> Source for Metered<'a> {
    ghost state = { λ metered. as_sure_source metered.source };

    fn pull(&mut self, into: &mut [u8]) -> Pull {
        if self.has_ended {
            self.late.fetch_add(1, Ordering::SeqCst);
        }
        let pull = self.source.pull(into);
        match pull {
            Pull::Bytes(count) => {
                self.taken.fetch_add(count as u64, Ordering::SeqCst);
            }
            Pull::End | Pull::Failed => self.has_ended = true,
        }
        pull
    }

    fn fault_count(&self) -> u64 {
        self.source.fault_count()
    }
}

/// Reads the word of a source when its first event is about to be applied.
#[derive(Drop)]
struct FirstLook<'a> {
    taken: &'a AtomicU64,
    at_first: AtomicU64,
}

impl<'a> Gate for FirstLook<'a> {
    fn worker_at<R: Wait>(&self, _rt: &R, _worker: u32, event: u64) {
        if event == 1 {
            let taken = self.taken.load(Ordering::SeqCst);
            self.at_first.store(taken, Ordering::SeqCst);
        }
    }

    fn worker_done<R: Wait>(&self, _rt: &R, _worker: u32) {}

    fn flusher_at<R: Wait>(&self, _rt: &R, _round: u32) {}

    fn reader_at<R: Wait>(&self, _rt: &R, _round: u32) {}
}

// A worker applies an event before it reads on: a body that gathers the events first has taken the whole file. At the
// end it is done with the source: a body that pulls it once more has the same contract.
#[test]
fn an_event_is_applied_before_the_file_is_read_on(rt: HostRuntime) -> Result<(), Fail> {
    let alloc = rt.alloc();
    let taken = AtomicU64::new(0);
    let late = AtomicU64::new(0);
    let gate = FirstLook {
        taken: &taken,
        at_first: AtomicU64::new(0),
    };
    let bytes = repeated(alloc, LINE, LINES)?.into_bytes();
    let source = Metered {
        source: SureSource::new(String::new(alloc), bytes, 100_000),
        has_ended: false,
        taken: &taken,
        late: &late,
    };
    let files = vec![in alloc; Given::Opened(source)]?;
    let report = run(&rt, alloc, &gate, "{}", files)?;
    let at_first = gate.at_first.load(Ordering::SeqCst);
    assert!(rt;
        LINE_BYTES <= at_first && at_first <= MOST_AT_FIRST,
        "{at_first} bytes were taken when the first event came"
    );
    assert!(rt; taken.load(Ordering::SeqCst) == 98_000);
    assert!(rt; late.load(Ordering::SeqCst) == 0);
    assert!(rt; report.verdicts.items().len() == 1);
    for told in report.verdicts.items() {
        assert!(rt; told.items().len() == 7_000);
    }
    drop(report);
    Ok(())
}
