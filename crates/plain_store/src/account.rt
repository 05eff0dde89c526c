//! What one event adds to the sums.
ghost use Rattle.std.specs.Prelude.{◌≡◌, ◌≤◌, ◌<◌, ◌+◌, ◌^◌, ℕ, IfSome, OnOk, OnErr, length};
ghost use Rattle.book_state.specs.Follows.{event_key};
ghost use Rattle.stat_defs.specs.declared.history.Verdict.TheVariants as verdict;
ghost use Rattle.stat_defs.specs.Borrowed.{event_of};
ghost use Rattle.stat_defs.specs.Events.{IsLawfulEvent};
ghost use Rattle.plain_store.specs.Sums.{delta_in, SumsUp, AreAlike, HasRoom, IsMade};

use crate::sums::{Sums, add, move_word};
use stat_defs::{EventRef, MetricId, NoMemory, Verdict};
use std::alloc::Global;

// Sums up an event that was accepted for a metric, one of so many. After want of memory nothing was summed.
#[inline(always)]
fn sum_accepted(
    sums: &mut Sums,
    alloc: Global,
    made: u32,
    event: &EventRef<'_>,
    id: MetricId,
) -> Result<(), NoMemory>
    requires lawful { IsLawfulEvent (event_of event.now) }
    requires made { IfSome (event_key (event_of event.now)) (λ key. id.0 < made) }
    requires room { HasRoom sums.old }
    ensures ok { OnOk result (SumsUp sums.old (event_of event.now, verdict.Accepted id) sums.new) }
    ensures err { OnErr result (AreAlike sums.old sums.new) }
    ensures units { (k : ℕ) → delta_in sums.new k ≤ delta_in sums.old k + 2 ^ 32 }
    ensures half { length sums.new.half.values ≤ length sums.old.half.values + 1 }
    ensures parents { sums.new.parents ≡ sums.old.parents }
{
    match *event {
        EventRef::Inc { n, .. } => add(&mut sums.deltas, made as usize, id, n),
        EventRef::Gauge { op, n, .. } => move_word(&mut sums.words, made as usize, id, op, n),
        EventRef::Rec { v, .. } => sums.half.record(alloc, id, v),
        _ => Ok(()),
    }
}

/// Sums up an event that was decided, where so many metrics were made. After want of memory nothing was summed.
#[inline(always)]
pub(crate) fn sum_up(
    sums: &mut Sums,
    alloc: Global,
    made: u32,
    event: &EventRef<'_>,
    verdict: Verdict,
) -> Result<(), NoMemory>
    requires lawful { IsLawfulEvent (event_of event.now) }
    requires made { IfSome (event_key (event_of event.now)) (λ key. IsMade made verdict) }
    requires room { HasRoom sums.old }
    ensures ok { OnOk result (SumsUp sums.old (event_of event.now, verdict) sums.new) }
    ensures err { OnErr result (AreAlike sums.old sums.new) }
    ensures units { (k : ℕ) → delta_in sums.new k ≤ delta_in sums.old k + 2 ^ 32 }
    ensures half { length sums.new.half.values ≤ length sums.old.half.values + 1 }
    ensures parents { sums.new.parents ≡ sums.old.parents }
{
    let Verdict::Accepted(id) = verdict else {
        return Ok(());
    };
    sum_accepted(sums, alloc, made, event, id)
}
