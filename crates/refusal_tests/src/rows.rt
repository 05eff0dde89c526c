//! Rows of three stores. Each is tried with refused calls made once more, and without.
ghost use Rattle.std.specs.Prelude.{IfOk};
ghost use Rattle.recorder.specs.declared.limits.TheConstants.{MAX_GIVEN};
ghost use Rattle.recorder.specs.Tied.{IsWorkerOf};
ghost use Rattle.refusal_tests.specs.Standing.{MayBeGiven, IsIdle};

use crate::again::{Desk, Looked, begin_late, end_round, poll, work};
use crate::row::{Row, course};
use crate::text::output;
use admin_side::Admin;
use flusher::Flusher;
use recorder::{Polled, Recorder};
use stat_defs::{Bin, BinCount, FlushRecord, Kind, Life, LogNames, MetricId, ScopeId, Verdict};
use std::alloc::Global;
use std::process::Abort;
use std::sync::Wait;
use std::test::Fail;

// What a flush told that waited for the worker's half.
#[derive(Drop)]
struct Late {
    /// The poll before the flush was begun, and the one that it waited for.
    looks: [Looked; 2],
    flush: FlushRecord,
}

// A poll, three events, a flush that waits for the worker's half, and an event more.
fn late_calls<R: Wait>(
    desk: &Desk<'_, R>,
    recorder: &mut Recorder,
    flusher: &mut Flusher,
    lines: [&'static str; 4],
) -> Result<Late, Fail>
    requires worker { MayBeGiven desk.now.store.now MAX_GIVEN recorder.old }
    requires flusher { IsIdle desk.now.store.now flusher.old }
    ensures worker { IfOk result (λ _. IsWorkerOf desk.now.store.now 1 recorder.new) }
    ensures flusher { IfOk result (λ _. IsIdle desk.now.store.now flusher.new) }
{
    let [first, second, third, fourth] = lines;
    let before = poll(desk, recorder, 131_072)?;
    let _first = work(desk, recorder, first, 131_070)?;
    let _second = work(desk, recorder, second, 131_068)?;
    let _third = work(desk, recorder, third, 131_066)?;
    begin_late(desk, flusher)?;
    let waited_for = poll(desk, recorder, 131_066)?;
    let flush = end_round(desk, flusher)?;
    let _fourth = work(desk, recorder, fourth, 131_064)?;
    Ok(Late {
        looks: [before, waited_for],
        flush,
    })
}

// Two scopes that share a counter; one of them is released.
fn shared_calls<R: Wait>(desk: &Desk<'_, R>, recorder: &mut Recorder) -> Result<[Verdict; 6], Fail>
    requires { MayBeGiven desk.now.store.now MAX_GIVEN recorder.old }
    ensures { IfOk result (λ _. IsWorkerOf desk.now.store.now 1 recorder.new) }
{
    let first = work(desk, recorder, "open p cluster.c", 131_070)?;
    let second = work(desk, recorder, "open q cluster.c.", 131_068)?;
    let third = work(desk, recorder, "inc p n 1", 131_066)?;
    let fourth = work(desk, recorder, "inc q n 2", 131_064)?;
    let fifth = work(desk, recorder, "release p", 131_062)?;
    let sixth = work(desk, recorder, "inc q n 4", 131_060)?;
    Ok([first, second, third, fourth, fifth, sixth])
}

// Whether a flush has one part, of the first worker and the first metric, with these bins.
fn has_bins(flush: &FlushRecord, bins: &[BinCount]) -> bool {
    match flush.parts.items() {
        [part] => part.worker == 1 && part.id == MetricId(0) && part.bins.items() == bins,
        _ => false,
    }
}

const fn bin_of(val: u8, exp: i8, count: u64) -> BinCount {
    BinCount {
        bin: Bin { val, exp },
        count,
    }
}

// A poll that did this, and was not refused.
const fn looked(turned: bool, acked: bool) -> Looked {
    Looked {
        polled: Polled { turned, acked },
        refused: false,
    }
}

struct LateHalf;

impl Row for LateHalf {
    type Told = Late;

    fn calls<R: Wait>(
        desk: &Desk<'_, R>,
        recorder: &mut Recorder,
        flusher: &mut Flusher,
        _admin: &mut Admin,
    ) -> Result<Late, Fail> {
        let lines = [
            "rec root h 7",
            "rec root h 7",
            "rec root h 100",
            "rec root h 5",
        ];
        late_calls(desk, recorder, flusher, lines)
    }
}

fn turn_and_late<R: Wait + Abort>(rt: &R, alloc: Global, again: bool) -> Result<(), Fail> {
    let (late, end) = course::<LateHalf, R>(rt, alloc, again)?;
    // No scope was released, so neither poll asks for memory.
    assert!(rt; late.looks == [looked(false, false), looked(true, false)]);
    assert!(rt; has_bins(&late.flush, &[bin_of(70, 0, 2), bin_of(10, 2, 1)]));
    assert!(rt; has_bins(&end.last, &[bin_of(50, 0, 1)]));
    Ok(())
}

#[test]
fn a_late_half(rt: HostRuntime) -> Result<(), Fail> {
    turn_and_late(&rt, rt.alloc(), false)
}

#[test]
fn goes_on_from_a_late_half(rt: HostRuntime) -> Result<(), Fail> {
    turn_and_late(&rt, rt.alloc(), true)
}

struct ReleaseBeside;

impl Row for ReleaseBeside {
    type Told = Late;

    fn calls<R: Wait>(
        desk: &Desk<'_, R>,
        recorder: &mut Recorder,
        flusher: &mut Flusher,
        _admin: &mut Admin,
    ) -> Result<Late, Fail> {
        let lines = [
            "open p cluster.c",
            "rec root h 7",
            "release p",
            "rec root h 5",
        ];
        late_calls(desk, recorder, flusher, lines)
    }
}

// The poll that the flush waits for turns the half and then acknowledges the release. Where it has no memory for the
// entry, the half is turned all the same, and the poll behind it acknowledges alone.
fn release_and_late<R: Wait + Abort>(rt: &R, alloc: Global, again: bool) -> Result<(), Fail> {
    let (late, end) = course::<ReleaseBeside, R>(rt, alloc, again)?;
    let [before, waited_for] = late.looks;
    assert!(rt; before == looked(false, false));
    assert!(rt; waited_for.polled.acked && waited_for.polled.turned != waited_for.refused);
    assert!(rt; has_bins(&late.flush, &[bin_of(70, 0, 1)]));
    assert!(rt; has_bins(&end.last, &[bin_of(50, 0, 1)]));
    Ok(())
}

#[test]
fn a_release_beside_a_late_half(rt: HostRuntime) -> Result<(), Fail> {
    release_and_late(&rt, rt.alloc(), false)
}

#[test]
fn goes_on_with_a_release_beside_a_late_half(rt: HostRuntime) -> Result<(), Fail> {
    release_and_late(&rt, rt.alloc(), true)
}

const VERDICTS: [Verdict; 6] = [
    Verdict::Opened(ScopeId(1)),
    Verdict::Opened(ScopeId(2)),
    Verdict::Accepted(MetricId(0)),
    Verdict::Accepted(MetricId(0)),
    Verdict::Released(ScopeId(1)),
    Verdict::Accepted(MetricId(0)),
];

// What the program writes of these events, with symbols.
const OUTPUT: &str = "# last
envoy.cluster.c.n:7|c
# symbols
cluster.c.n counter - 03010203 1=cluster 2=c 3=n
# worker 1: 6 accepted, 0 dropped
";

// Whether the one metric is a live counter.
fn is_live_counter(names: &LogNames) -> bool {
    match names.metrics.items() {
        [metric] => metric.kind == Kind::Counter && metric.life == Life::Live,
        _ => false,
    }
}

struct SharedSymbols;

impl Row for SharedSymbols {
    type Told = [Verdict; 6];

    fn calls<R: Wait>(
        desk: &Desk<'_, R>,
        recorder: &mut Recorder,
        _flusher: &mut Flusher,
        _admin: &mut Admin,
    ) -> Result<[Verdict; 6], Fail> {
        shared_calls(desk, recorder)
    }
}

fn symbols_shared<R: Wait + Abort>(rt: &R, alloc: Global, again: bool) -> Result<(), Fail> {
    let (verdicts, end) = course::<SharedSymbols, R>(rt, alloc, again)?;
    assert!(rt; verdicts == VERDICTS);
    assert!(rt; is_live_counter(&end.names));
    assert_eq!(rt; output(alloc, &end, &verdicts)?.bytes(), OUTPUT.as_bytes());
    Ok(())
}

#[test]
fn shared_symbols(rt: HostRuntime) -> Result<(), Fail> {
    symbols_shared(&rt, rt.alloc(), false)
}

#[test]
fn goes_on_with_shared_symbols(rt: HostRuntime) -> Result<(), Fail> {
    symbols_shared(&rt, rt.alloc(), true)
}
