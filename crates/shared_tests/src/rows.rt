//! The table of scripts.
ghost use Rattle.std.specs.Prelude.{◌≤◌};

use crate::scripts::told_by;
use std::alloc::Global;
use std::process::Abort;
use std::sync::Wait;
use std::test::Fail;

// How a row reads:
//
//     CALLS => ANSWERS => [LAST FLUSH] LOG
//
// Calls stand between commas. A worker's begins with its number. Its event is polled for and tried with what the worker
// holds, before the book is asked. Every answer is one word, or a list in brackets:
//
// - of an event, its verdict: the number of the metric, or a word. A star says that it was held. `turned.` and `acked.`
//   say what the poll before it did;
// - of `pass`, `done`, or the late worker with the word that was found;
// - of `flush`, `[0+2 1=7 3@1(70,0)x2]`: 2 units of counter 0, gauge 1 at 7, and of worker 1 two values in a bin of
//   histogram 3;
// - of `read`, `{0:2 1=7}`: counter 0 at 2, and gauge 1 at 7.
//
// An entry of the log is its seat and its reply: `o1` opened scope 1, `r1` released it, `m0` made metric 0, `f0` found
// it, `a1` acknowledged one release, `s1` made one metric gone in a sweep, `t` set a text, `e` ended, and `-` refused.

const NO_TAGS: &str = r#"{"stats_config":{"use_all_default_tags":false}}"#;

const ONE_WORKER: &str = "\
1 inc root a 1, 1 inc root a 1, 1 end => 0 0* ended => [0+2] 0o0 1m0 1e 0s0
1 poll, 1 rec root h 7, 1 rec root h 7, 1 rec root h 100, begin, pass, 1 poll, pass, flush, 1 rec root h 5, 1 end \
    => - 0 0* 0* begun late1:1 turned done [0@1(70,0)x2(10,2)x1] 0* ended => [0@1(50,0)x1] 0o0 1m0 0s0 1e 0s0
1 poll, 1 rec root h 7, 1 rec root h 7, 1 rec root h 100, begin, pass, 1 poll, 1 end, pass, flush \
    => - 0 0* 0* begun late1:1 turned ended done [0@1(70,0)x2(10,2)x1] => [] 0o0 1m0 0s0 1e 0s0
1 rec root h 7, 1 rec root h 7, 1 rec root h 100, 1 end, begin, pass, flush \
    => 0 0* 0* ended begun done [] => [0@1(70,0)x2(10,2)x1] 0o0 1m0 1e 0s0 0s0
1 rec root h 7, begin, pass, 1 rec root h 8, pass, flush, begin, pass, 1 rec root h 9, pass, flush, 1 end \
    => 0 begun late1:1 turned.0* done [0@1(70,0)x1] begun late1:1 turned.0* done [0@1(80,0)x1] ended \
    => [0@1(90,0)x1] 0o0 1m0 0s0 0s0 1e 0s0";

const REJECTS_ALL: &str =
    r#"{"stats_config":{"use_all_default_tags":false,"stats_matcher":{"reject_all":true}}}"#;

const REJECTED: &str = "\
1 inc root a 1, 1 inc root a 1, 1 end => rejected rejected* ended => [] 0o0 1- 1e 0s0";

const SCOPE_S: &str = r#"{"stats_config":{"use_all_default_tags":false},
    "stats_run":{"scopes":[{"label":"s","prefix":"t"}]}}"#;

const TWO_WORKERS: &str = "\
1 inc s a 1, 1 inc s a 1, 2 release s, 1 inc s a 1, 1 end, 2 end \
    => 0 0* released1 acked.noscope ended ended => [0+2] 0o0 0o1 1m0 2r1 1a1 1- 1e 2e 0s1
1 inc s a 1, 2 release s, 1 poll, 1 end, 2 end => 0 released1 acked ended ended => [0+1] 0o0 0o1 1m0 2r1 1a1 1e 2e 0s1
1 inc root a 1, 2 inc root a 2, 1 end, 2 end => 0 0 ended ended => [0+3] 0o0 0o1 1m0 2f0 1e 2e 0s0
1 inc root a 1, 2 inc root b 2, 2 end, begin, pass, 1 inc root b 4, pass, flush, 1 end \
    => 0 1 ended begun late1:1 turned.1 done [0+1 1+6] ended => [0+0 1+0] 0o0 0o1 1m0 2m1 2e 0s0 1f1 1e 0s0
1 inc root a 1, begin, 1 inc root a 2, 2 inc root b 5, pass, flush, 1 end, 2 end \
    => 0 begun turned.0* turned.1 done [0+3] ended ended => [0+0 1+5] 0o0 0o1 1m0 0s0 2m1 1e 2e 0s0
begin, pass, 1 poll, pass, 2 poll, pass, flush, 2 end, 1 end \
    => begun late1:1 turned late2:1 turned done [] ended ended => [] 0o0 0o1 0s0 2e 1e 0s0
read, 1 inc root a 1, read, 2 inc root a 2, read, 1 end, 2 end, read \
    => {} 0 {0:1} 0 {0:3} ended ended {0:3} => [0+3] 0o0 0o1 1m0 2f0 1e 2e 0s0
1 inc root a 1, begin, 1 poll, 2 poll, pass, flush, read, 2 inc root a 4, read, 1 end, 2 end \
    => 0 begun turned turned done [0+1] {0:1} 0 {0:5} ended ended => [0+4] 0o0 0o1 1m0 0s0 2f0 1e 2e 0s0
1 set root g acc 9, read, 2 sub root g acc 10, read, 1 add root g acc 3, read, 2 set root g acc 4, 1 end, 2 end \
    => 0 {0=9} 0 {0=18446744073709551615} 0* {0=2} 0* ended ended => [0=4] 0o0 0o1 1m0 2f0 1e 2e 0s0
1 set root g acc 5, 2 add root g never 2, 1 end, 2 end => 0 0 ended ended => [0=7] 0o0 0o1 1m0 2f0 1e 2e 0s0
1 inc s a 1, 2 release s, 2 inc s a 1, 1 open s u, 2 inc s a 1, 1 inc s a 4, 1 end, 2 end \
    => 0 released1 acked.noscope acked.opened2 1 1 ended ended \
    => [0+1 1+5] 0o0 0o1 1m0 2r1 2a1 2- 1a1 1o2 2m1 1f1 1e 2e 0s1
1 inc s a 1, 1 release s, 1 open v t, 1 inc v a 4, 2 inc root b 1, begin, 1 poll, 2 poll, pass, flush, 1 end, 2 end \
    => 0 released1 acked.opened2 0 acked.1 begun turned turned done [0+5 1+1] ended ended \
    => [0+0 1+0] 0o0 0o1 1m0 1r1 1a1 1o2 1f0 2a1 2m1 0s0 1e 2e 0s0
1 inc s a 1, 2 release s, 1 inc root b 1, 2 inc root b 1, begin, 1 poll, 2 poll, pass, flush, \
begin, 1 poll, 2 poll, pass, flush, read, 1 end, 2 end \
    => 0 released1 acked.1 acked.1 begun turned turned done [0+1 1+2] begun turned turned done [1+0] {1:2} ended ended \
    => [0+0 1+0] 0o0 0o1 1m0 2r1 1a1 1m1 2a1 2f1 0s1 0s0 1e 2e 0s0
1 inc s a 1, 1 release s, 1 inc root b 1, begin, 1 inc s a 1, 2 inc root b 2, pass, flush, read, \
begin, 1 poll, 2 poll, pass, flush, 1 end, 2 end \
    => 0 released1 acked.1 begun turned.noscope turned.acked.1 done [0+1 1+3] {0:1 1:3} \
begun turned turned done [0+0 1+0] ended ended \
    => [0+0 1+0] 0o0 0o1 1m0 1r1 1a1 1m1 0s0 1- 2a1 2f1 0s1 1e 2e 0s0
1 rec root h 7, 2 rec root h 7, begin, 2 poll, pass, 1 poll, pass, flush, 2 rec root h 100, 2 end, 1 end \
    => 0 0 begun turned late1:1 turned done [0@1(70,0)x1 0@2(70,0)x1] 0* ended ended \
    => [0@2(10,2)x1] 0o0 0o1 1m0 2f0 0s0 2e 1e 0s0
1 rec root h 7, begin, 1 end, pass, 2 end, pass, flush \
    => 0 begun ended late2:1 ended done [] => [0@1(70,0)x1] 0o0 0o1 1m0 0s0 1e 2e 0s0
1 inc root a 1, 2 inc root a 1, 2 end, 1 end, begin, pass, flush, begin, pass, flush \
    => 0 0 ended ended begun done [0+2] begun done [0+0] => [0+0] 0o0 0o1 1m0 2f0 2e 1e 0s0 0s0 0s0
1 text root v one, 1 text root v two, 2 text root v one, 2 open s u, 1 end, 2 end \
    => 0 0 0 taken ended ended => [] 0o0 0o1 1m0 1t 1t 2f0 2t 2- 1e 2e 0s0
1 inc root a 1, 2 rec root a 1, 1 set root a never 3, begin, 2 rec root a 0, pass, 1 end, pass, flush, 2 end \
    => 0 1 2 begun turned.1* late1:1 ended done [0+1 2=3 1@2(10,0)x1] ended \
    => [0+0 2=3 1@2(0,0)x1] 0o0 0o1 1m0 2m1 1m2 0s0 1e 2e 0s0";

// Runs each row, and says how many there are.
fn come_true<R: Wait + Abort>(
    rt: &R,
    alloc: Global,
    bootstrap: &str,
    workers: u32,
    rows: &str,
) -> u32
    requires { (1 ≤ workers) × (workers ≤ 2) }
{
    let mut count = 0u32;
    for row in rows.split('\n') {
        let Some((calls, want)) = row.split_once(" => ") else {
            panic!(rt; "no row: {row}")
        };
        let told = told_by(rt, alloc, bootstrap, workers, calls);
        assert!(rt;
            told.as_str() == want,
            "{calls}\nwanted {want}\ntold   {told}"
        );
        count = count.wrapping_add(1);
    }
    count
}

#[test]
fn orders_of_one_worker(rt: HostRuntime) -> Result<(), Fail> {
    assert!(rt; come_true(&rt, rt.alloc(), NO_TAGS, 1, ONE_WORKER) == 5);
    Ok(())
}

#[test]
fn names_that_are_rejected(rt: HostRuntime) -> Result<(), Fail> {
    assert!(rt; come_true(&rt, rt.alloc(), REJECTS_ALL, 1, REJECTED) == 1);
    Ok(())
}

#[test]
fn orders_of_two_workers(rt: HostRuntime) -> Result<(), Fail> {
    assert!(rt; come_true(&rt, rt.alloc(), SCOPE_S, 2, TWO_WORKERS) == 19);
    Ok(())
}
