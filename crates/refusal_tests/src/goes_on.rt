//! Two scopes that share a counter, a histogram and a text.

use crate::again::{Desk, flush, read, work};
use crate::closing::{finds_in, sums_in};
use crate::row::{Row, course};
use crate::text::{text_sink, write_flush};
use admin_side::Admin;
use flusher::Flusher;
use recorder::Recorder;
use stat_defs::{FlushRecord, MetricId, ReadRecord, ScopeId, Verdict};
use std::sync::Wait;
use std::test::Fail;

// What came of it all.
#[derive(Drop)]
struct Told {
    verdicts: [Verdict; 10],
    reading: ReadRecord,
    flush: FlushRecord,
}

struct SharedMetrics;

impl Row for SharedMetrics {
    type Told = Told;

    // Eight events, a reading, a flush and two events more.
    fn calls<R: Wait>(
        desk: &Desk<'_, R>,
        recorder: &mut Recorder,
        flusher: &mut Flusher,
        admin: &mut Admin,
    ) -> Result<Told, Fail> {
        let first = work(desk, recorder, "open p cluster.c", 131_070)?;
        let second = work(desk, recorder, "open q cluster.c.", 131_068)?;
        let third = work(desk, recorder, "inc p n 1", 131_066)?;
        let fourth = work(desk, recorder, "inc q n 2", 131_064)?;
        let fifth = work(desk, recorder, "release p", 131_062)?;
        let sixth = work(desk, recorder, "inc q n 4", 131_060)?;
        let seventh = work(desk, recorder, "rec q h 7", 131_058)?;
        let eighth = work(desk, recorder, "text q t x", 131_056)?;
        let reading = read(desk, admin)?;
        let flush = flush(desk, recorder, flusher, 131_056)?;
        let ninth = work(desk, recorder, "inc q n 8", 131_054)?;
        let tenth = work(desk, recorder, "rec q h 9", 131_052)?;
        Ok(Told {
            verdicts: [
                first, second, third, fourth, fifth, sixth, seventh, eighth, ninth, tenth,
            ],
            reading,
            flush,
        })
    }
}

const VERDICTS: [Verdict; 10] = [
    Verdict::Opened(ScopeId(1)),
    Verdict::Opened(ScopeId(2)),
    Verdict::Accepted(MetricId(0)),
    Verdict::Accepted(MetricId(0)),
    Verdict::Released(ScopeId(1)),
    Verdict::Accepted(MetricId(0)),
    Verdict::Accepted(MetricId(1)),
    Verdict::Accepted(MetricId(2)),
    Verdict::Accepted(MetricId(0)),
    Verdict::Accepted(MetricId(1)),
];

// Three openings, four finds, a release with its acknowledgement, and a text: what was refused left no entry, or the one
// find that the same event would make again.
const ENTRIES: u64 = 10;

// The text's find, the entry before the last one, made the newest name.
const NEWEST_NAME: u64 = 9;

const FINDS: usize = 4;

// The counter in both flushes.
const FLUSHES: &str = "# flush 1
envoy.cluster.c.n:7|c
# last
envoy.cluster.c.n:8|c
";

// The word of the one counter.
fn word_in(reading: &ReadRecord) -> u64 {
    match reading.counters.items() {
        [counter] => counter.word,
        _ => 0,
    }
}

#[test]
fn goes_on_after_a_refusal(rt: HostRuntime) -> Result<(), Fail> {
    let alloc = rt.alloc();
    let (told, end) = course::<SharedMetrics, HostRuntime>(&rt, alloc, true)?;
    assert!(rt; told.verdicts == VERDICTS);
    assert!(rt; told.reading.at == NEWEST_NAME && word_in(&told.reading) == 7);
    assert!(rt; told.flush.at == ENTRIES && sums_in(&told.flush) == (7, 1));
    // Behind the flush's sweep the worker's end.
    assert!(rt; end.last.at == ENTRIES + 2 && sums_in(&end.last) == (8, 1));
    assert!(rt; end.log.items().len() == 13 && finds_in(end.log.items()) == FINDS);
    let mut out = text_sink(alloc)?;
    let metrics = end.names.metrics.items();
    write_flush(alloc, "# flush 1\n", metrics, &told.flush, &mut out)?;
    write_flush(alloc, "# last\n", metrics, &end.last, &mut out)?;
    assert_eq!(rt; out.bytes(), FLUSHES.as_bytes());
    Ok(())
}
