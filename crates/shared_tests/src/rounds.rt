//! The calls of the flusher and of the reader.
ghost use Rattle.std.specs.Prelude.{◌≡◌, None, IsSome, All};
ghost use Rattle.flush_cells.specs.declared.passing.Pass.TheVariants.{Done};
ghost use Rattle.flush_cells.specs.Cells.{IsNotHolding};
ghost use Rattle.flush_cells.specs.Late.{pass_from};
ghost use Rattle.admin_side.specs.Reader.{IsReaderOf};
ghost use Rattle.flusher.specs.Flusher.{IsFlusherOf};
ghost use Rattle.shared_tests.specs.Parties.{IsAtRound};

use crate::parties::Rounds;
use crate::texts::{flush_text, pass_text, read_text};
use crate::working::{Desk, text};
use admin_side::Admin;
use flush_cells::Pass;
use flusher::Flusher;
use std::process::Abort;
use std::sync::Wait;

fn begin<R: Wait + Abort>(desk: &Desk<'_, R>, mut flusher: Flusher) -> (Rounds, String)
    requires { IsFlusherOf desk.now.store.now flusher × (flusher.round ≡ None) }
    ensures { IsAtRound desk.now.store.now result.0 }
{
    flusher
        .begin(desk.rt, desk.alloc, desk.store)
        .expect(desk.rt, "a round");
    (Rounds::Begun(flusher), text(desk, "begun"))
}

fn pass<R: Wait + Abort>(desk: &Desk<'_, R>, mut flusher: Flusher) -> (Rounds, String)
    requires { IsFlusherOf desk.now.store.now flusher × IsSome flusher.round }
    ensures { IsAtRound desk.now.store.now result.0 }
{
    let pass = flusher
        .pass(desk.alloc, desk.store)
        .expect(desk.rt, "a pass");
    let answer = pass_text(desk.alloc, pass).expect(desk.rt, "a text");
    match pass {
        Pass::Done => (Rounds::Taken(flusher), answer),
        Pass::Late(..) => (Rounds::Begun(flusher), answer),
    }
}

fn flush<R: Wait + Abort>(desk: &Desk<'_, R>, mut flusher: Flusher) -> (Rounds, String)
    requires flusher { IsFlusherOf desk.now.store.now flusher × IsSome flusher.round }
    requires taken { (pass_from 1 flusher.tokens ≡ Done) × All IsNotHolding flusher.tokens }
    ensures { IsAtRound desk.now.store.now result.0 }
{
    let shown = flusher
        .flush(desk.alloc, desk.store)
        .expect(desk.rt, "a flush");
    let answer = flush_text(desk.alloc, &shown).expect(desk.rt, "a text");
    (Rounds::Between(flusher), answer)
}

/// The next call of the flusher, and what it answered.
pub(crate) fn flusher_calls<R: Wait + Abort>(
    desk: &Desk<'_, R>,
    rounds: Rounds,
    call: &str,
) -> (Rounds, String)
    requires { IsAtRound desk.now.store.now rounds }
    ensures { IsAtRound desk.now.store.now result.0 }
{
    match (rounds, call) {
        (Rounds::Between(flusher), "begin") => begin(desk, flusher),
        (Rounds::Begun(flusher), "pass") => pass(desk, flusher),
        (Rounds::Taken(flusher), "flush") => flush(desk, flusher),
        _ => panic!(desk.rt; "no call of the flusher now: {call}"),
    }
}

/// A reading, and what it answered.
pub(crate) fn reader_calls<R: Wait + Abort>(desk: &Desk<'_, R>, mut admin: Admin) -> (Admin, String)
    requires { IsReaderOf desk.now.store.now.book desk.now.store.now.counters desk.now.store.now.gauges admin }
    ensures { IsReaderOf desk.now.store.now.book desk.now.store.now.counters desk.now.store.now.gauges result.0 }
{
    let store = desk.store;
    let shown = admin
        .read(&store.book, desk.alloc, &store.counters, &store.gauges)
        .expect(desk.rt, "a reading");
    let answer = read_text(desk.alloc, &shown).expect(desk.rt, "a text");
    (admin, answer)
}
