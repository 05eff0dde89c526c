//! A store that is closed where a refused event was not given again.
ghost use Rattle.std.specs.Prelude.{IfOk};
ghost use Rattle.recorder.specs.declared.limits.TheConstants.{MAX_GIVEN};
ghost use Rattle.recorder.specs.Tied.{IsWorkerOf};
ghost use Rattle.refusal_tests.specs.Standing.{MayBeGiven};

use crate::again::{Desk, work_once};
use crate::closing::{finds_in, sums_in, units_of};
use crate::row::{Row, course};
use admin_side::Admin;
use flusher::Flusher;
use recorder::Recorder;
use std::sync::Wait;
use std::test::Fail;

// Gives the worker four events, each once, and tells which were not refused.
fn calls<R: Wait>(desk: &Desk<'_, R>, recorder: &mut Recorder) -> Result<[bool; 4], Fail>
    requires { MayBeGiven desk.now.store.now MAX_GIVEN recorder.old }
    ensures { IfOk result (λ _. IsWorkerOf desk.now.store.now 1 recorder.new) }
{
    let first = work_once(desk, recorder, "inc root a 1", 131_071)?;
    let second = work_once(desk, recorder, "rec root h 7", 131_070)?;
    let third = work_once(desk, recorder, "inc root b 2", 131_069)?;
    let fourth = work_once(desk, recorder, "inc root a 4", 131_068)?;
    Ok([first, second, third, fourth])
}

// The units of counter a and those of counter b, and the values of the histogram.
fn sums_of(given: [bool; 4]) -> (u64, u64, u64) {
    let [first, second, third, fourth] = given;
    (
        u64::from(first) + 4 * u64::from(fourth),
        2 * u64::from(third),
        u64::from(second),
    )
}

// How many of those events were not refused.
fn count_of(given: [bool; 4]) -> u64 {
    let [first, second, third, fourth] = given;
    u64::from(first) + u64::from(second) + u64::from(third) + u64::from(fourth)
}

struct WithoutRefused;

impl Row for WithoutRefused {
    type Told = [bool; 4];

    fn calls<R: Wait>(
        desk: &Desk<'_, R>,
        recorder: &mut Recorder,
        _flusher: &mut Flusher,
        _admin: &mut Admin,
    ) -> Result<[bool; 4], Fail> {
        calls(desk, recorder)
    }
}

#[test]
fn goes_on_without_a_refused_event(rt: HostRuntime) -> Result<(), Fail> {
    let (given, end) = course::<WithoutRefused, HostRuntime>(&rt, rt.alloc(), true)?;
    // One request for memory is refused in a run at most, so the recorder goes on behind it.
    assert!(rt; count_of(given) >= 3);
    let (a, b, values) = sums_of(given);
    assert!(rt; units_of(&end, b"a") == a && units_of(&end, b"b") == b);
    assert!(rt; sums_in(&end.last) == (a.wrapping_add(b), values));
    // The opening of `root`, the finds, the worker's end and the sweep. The find of a refused event may stand there.
    let finds = finds_in(end.log.items());
    assert!(rt; finds <= 3 && end.log.items().len() == finds + 3);
    Ok(())
}
