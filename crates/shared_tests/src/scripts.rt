//! The interpreter of a script: calls of a store's parties, one after another.
ghost use Rattle.std.specs.Prelude.{◌≡◌, ◌≤◌, IfSome};
ghost use Rattle.store_closing.specs.Closes.{HaveEnded};
ghost use Rattle.shared_tests.specs.Parties.{IsPartyOf, AreParties};

use crate::opening::open;
use crate::parties::{Parties, Rounds, Worker};
use crate::rounds::{flusher_calls, reader_calls};
use crate::texts::end_text;
use crate::working::{Desk, worker_calls};
use flusher::Flusher;
use recorder::Ended;
use std::alloc::Global;
use std::process::Abort;
use std::sync::Wait;
use store_closing::close_store;
use store_parts::Store;

// The next call of worker 2.
fn second_calls<R: Wait + Abort>(
    desk: &Desk<'_, R>,
    worker: Option<Worker>,
    words: &str,
) -> (Option<Worker>, String)
    requires { IfSome worker (IsPartyOf desk.now.store.now 2) }
    ensures { IfSome result.0 (IsPartyOf desk.now.store.now 2) }
{
    let Some(worker) = worker else {
        panic!(desk.rt; "no worker 2")
    };
    let (worker, answer) = worker_calls(desk, 2, worker, words);
    (Some(worker), answer)
}

/// The next call, and what it answered.
pub(crate) fn one_call<R: Wait + Abort>(
    rt: &R,
    alloc: Global,
    parties: Parties,
    call: &str,
) -> (Parties, String)
    requires { AreParties parties }
    ensures { AreParties result.0 }
{
    let Parties {
        store,
        mut first,
        mut second,
        mut rounds,
        mut admin,
    } = parties;
    let desk = Desk {
        rt,
        alloc,
        store: &store,
    };
    let answer;
    if let Some(words) = call.strip_prefix("1 ") {
        (first, answer) = worker_calls(&desk, 1, first, words);
    } else if let Some(words) = call.strip_prefix("2 ") {
        (second, answer) = second_calls(&desk, second, words);
    } else if call == "read" {
        (admin, answer) = reader_calls(&desk, admin);
    } else {
        (rounds, answer) = flusher_calls(&desk, rounds, call);
    }
    let parties = Parties {
        store,
        first,
        second,
        rounds,
        admin,
    };
    (parties, answer)
}

// What a worker left that has ended.
fn left_by<R: Abort>(rt: &R, worker: Worker) -> Ended
    ensures { worker ≡ Worker.Left result }
{
    let Worker::Left(ended) = worker else {
        panic!(rt; "a worker has not ended")
    };
    ended
}

// What the workers left.
fn all_ended<R: Abort>(
    rt: &R,
    alloc: Global,
    store: &Store,
    first: Worker,
    second: Option<Worker>,
) -> Vec<Ended>
    requires first { IsPartyOf store.now 1 first }
    requires second { IfSome second (IsPartyOf store.now 2) }
    ensures { HaveEnded store.now result.items }
{
    let first = left_by(rt, first);
    let Some(second) = second else {
        assert!(rt; store.cells.len() == 1);
        return vec![in alloc; first].expect(rt, "a list");
    };
    let second = left_by(rt, second);
    assert!(rt; store.cells.len() == 2);
    vec![in alloc; first, second].expect(rt, "a list")
}

/// The flusher between two rounds.
pub(crate) fn idle_flusher<R: Abort>(rt: &R, rounds: Rounds) -> Flusher
    ensures { rounds ≡ Rounds.Between result }
{
    let Rounds::Between(flusher) = rounds else {
        panic!(rt; "a round has not ended")
    };
    flusher
}

// Ends the store of a script whose workers have ended, and tells the last flush and the log.
fn end<R: Abort>(rt: &R, alloc: Global, parties: Parties) -> String
    requires { AreParties parties }
{
    let Parties {
        store,
        first,
        second,
        rounds,
        admin,
    } = parties;
    let ended = all_ended(rt, alloc, &store, first, second);
    let flusher = idle_flusher(rt, rounds);
    let last = close_store(alloc, store, ended, flusher, admin).expect(rt, "a last flush");
    end_text(alloc, &last).expect(rt, "a text")
}

/// What the calls of a script answer, one after another, and behind an arrow the last flush and the log of the store,
/// which has so many workers.
pub(crate) fn told_by<R: Wait + Abort>(
    rt: &R,
    alloc: Global,
    bootstrap: &str,
    workers: u32,
    calls: &str,
) -> String
    requires { (1 ≤ workers) × (workers ≤ 2) }
{
    let mut parties = open(rt, alloc, bootstrap, workers);
    let mut told = String::new(alloc);
    for call in calls.split(", ") {
        let answer;
        (parties, answer) = one_call(rt, alloc, parties, call);
        told.push_str(answer.as_str()).expect(rt, "a text");
        told.push(' ').expect(rt, "a text");
    }
    let end = end(rt, alloc, parties);
    format!(in alloc; "{told}=> {end}").expect(rt, "a text")
}
