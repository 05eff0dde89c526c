//! The calls of a worker.
ghost use Rattle.std.specs.Prelude.{◌≡◌, ◌<◌};
ghost use Rattle.stat_defs.specs.Borrowed.{event_of};
ghost use Rattle.stat_defs.specs.Events.{IsLawfulEvent};
ghost use Rattle.store_parts.specs.Ids.{ids_of};
ghost use Rattle.recorder.specs.declared.limits.TheConstants.{MAX_GIVEN};
ghost use Rattle.recorder.specs.Knowing.{HasItsCell};
ghost use Rattle.shared_tests.specs.Parties.{WorksOn, WorksMore, IsPartyOf};

use crate::parties::Worker;
use crate::texts::event_text;
use event_script::{Lines, Step, line_says_lawful_events};
use recorder::{MAX_GIVEN, Polled, Recorder};
use stat_defs::{Event, EventRef};
use stats_io::SureSource;
use std::alloc::Global;
use std::process::Abort;
use std::sync::Wait;
use store_parts::Store;

/// Where a party works: the runtime that may wait and stop, and the store.
#[derive(Drop)]
pub(crate) struct Desk<'a, R: Wait + Abort> {
    pub(crate) rt: &'a R,
    pub(crate) alloc: Global,
    pub(crate) store: &'a Store,
}

/// A short text.
pub(crate) fn text<R: Wait + Abort>(desk: &Desk<'_, R>, words: &str) -> String {
    format!(in desk.alloc; "{words}").expect(desk.rt, "a text")
}

// Polls, applies an event by what is held, or else by the book, and tells what it came to.
fn work_one<R: Wait + Abort>(
    desk: &Desk<'_, R>,
    recorder: &mut Recorder,
    event: &EventRef<'_>,
) -> String
    requires own { recorder.old.of ≡ ids_of desk.now.store.now }
    requires cell { HasItsCell desk.now.store.now recorder.old }
    requires lawful { IsLawfulEvent (event_of event.now) }
    requires few { recorder.old.given < MAX_GIVEN }
    ensures { WorksMore desk.now.store.now recorder.old recorder.new }
{
    let polled = recorder
        .poll(desk.rt, desk.alloc, desk.store)
        .expect(desk.rt, "a poll");
    let hit = recorder
        .apply_hit(desk.alloc, desk.store, event)
        .expect(desk.rt, "a hit");
    if let Some(verdict) = hit {
        return event_text(desk.alloc, polled, verdict, "*").expect(desk.rt, "a text");
    }
    let verdict = recorder
        .apply(desk.rt, desk.alloc, desk.store, event)
        .expect(desk.rt, "an event");
    event_text(desk.alloc, polled, verdict, "").expect(desk.rt, "a text")
}

// The event that a line says.
fn event_in<R: Abort>(rt: &R, alloc: Global, line: &str) -> Event
    ensures { IsLawfulEvent result }
{
    line_says_lawful_events();
    let bytes = line.as_bytes().to_vec(alloc).expect(rt, "a line");
    let source = SureSource::new(String::new(alloc), bytes, 4096);
    let mut lines = Lines::new(alloc, source).expect(rt, "lines");
    match lines.next(alloc).expect(rt, "a step") {
        Step::Event(event) => event,
        _ => panic!(rt; "no event: {line}"),
    }
}

fn poll_word(polled: Polled) -> &'static str {
    match (polled.turned, polled.acked) {
        (true, true) => "turned.acked",
        (true, false) => "turned",
        (false, true) => "acked",
        (false, false) => "-",
    }
}

// Polls, and tells what it did.
fn poll_alone<R: Wait + Abort>(desk: &Desk<'_, R>, recorder: &mut Recorder) -> String
    requires own { recorder.old.of ≡ ids_of desk.now.store.now }
    requires cell { HasItsCell desk.now.store.now recorder.old }
    ensures { WorksOn desk.now.store.now recorder.old recorder.new }
{
    let polled = recorder
        .poll(desk.rt, desk.alloc, desk.store)
        .expect(desk.rt, "a poll");
    text(desk, poll_word(polled))
}

// Polls, applies the event that a line says, and tells what it came to.
fn event_calls<R: Wait + Abort>(desk: &Desk<'_, R>, recorder: &mut Recorder, line: &str) -> String
    requires own { recorder.old.of ≡ ids_of desk.now.store.now }
    requires cell { HasItsCell desk.now.store.now recorder.old }
    requires few { recorder.old.given < MAX_GIVEN }
    ensures { WorksMore desk.now.store.now recorder.old recorder.new }
{
    let event = event_in(desk.rt, desk.alloc, line);
    let answer = work_one(desk, recorder, &event.borrowed());
    drop(event);
    answer
}

/// The next call of a worker, and what it answered: a poll, the end, or an event with the poll before it.
pub(crate) fn worker_calls<R: Wait + Abort>(
    desk: &Desk<'_, R>,
    number: u32,
    worker: Worker,
    words: &str,
) -> (Worker, String)
    requires { IsPartyOf desk.now.store.now number worker }
    ensures { IsPartyOf desk.now.store.now number result.0 }
{
    let Worker::AtWork(mut recorder, given) = worker else {
        panic!(desk.rt; "worker {number} has ended")
    };
    match words {
        "end" => {
            let ended = recorder
                .end(desk.rt, desk.alloc, desk.store)
                .expect(desk.rt, "an end");
            (Worker::Left(ended), text(desk, "ended"))
        }
        "poll" => {
            let answer = poll_alone(desk, &mut recorder);
            (Worker::AtWork(recorder, given), answer)
        }
        _ => {
            assert!(desk.rt; given < MAX_GIVEN);
            let answer = event_calls(desk, &mut recorder, words);
            (Worker::AtWork(recorder, given + 1), answer)
        }
    }
}
