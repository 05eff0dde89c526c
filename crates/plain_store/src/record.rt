//! The record of a flush.
ghost use Rattle.std.specs.Prelude.{◌≡◌, ◌≤◌, ◌<◌, ◌+◌, ◌==◌, [], ◌∷◌, ◌++◌, ℕ, All, IfOk, OnOk, length, map, filter, if◌then◌else◌};
ghost use Rattle.stat_defs.specs.declared.ids.Kind.TheVariants.{Counter, Gauge};
ghost use Rattle.stat_book.specs.Calls.{state_of};
ghost use Rattle.loglinear_bins.specs.declared.place.TheConstants.{MAX_COUNT};
ghost use Rattle.merge_round.specs.Halves.{bins_by};
ghost use Rattle.merge_round.specs.Rounds.{worker_values, ArePartsOf};
ghost use Rattle.plain_store.specs.Sums.{number_at, is_of_kind, delta_of, reading_of, is_among, delta_in, Shows};
ghost use Rattle.plain_store.specs.Sums.{IsEmptied, value_count};

use crate::lists::of_kind;
use crate::seat::SEAT;
use crate::sums::{Sums, number_at};
use crate::worker::LoneWorker;
use stat_defs::{Delta, FlushRecord, Kind, List, MetricId, NoMemory, Part, Reading};
use std::alloc::Global;

// A delta for each of these counters.
fn deltas_of(alloc: Global, deltas: &[u64], ids: &[MetricId]) -> Result<Vec<Delta>, NoMemory>
    ensures { IfOk result (λ shown. shown.items ≡ map (delta_of deltas.now) ids.now) }
{
    let mut shown = Vec::new(alloc);
    for id in ids {
        let n = number_at(deltas, *id);
        shown.push(Delta { id: *id, n })?;
    }
    Ok(shown)
}

// A reading of each of these gauges.
fn readings_of(alloc: Global, words: &[u64], ids: &[MetricId]) -> Result<Vec<Reading>, NoMemory>
    ensures { IfOk result (λ shown. shown.items ≡ map (reading_of words.now) ids.now) }
{
    let mut shown = Vec::new(alloc);
    for id in ids {
        let word = number_at(words, *id);
        shown.push(Reading { id: *id, word })?;
    }
    Ok(shown)
}

// A number becomes 0.
fn set_zero(deltas: &mut Vec<u64>, id: MetricId)
    ensures { (k : ℕ) → number_at deltas.new.items k ≡ (if id.0 == k then 0 else number_at deltas.old.items k) }
{
    let at = id.0 as usize;
    if at < deltas.len() {
        deltas[at] = 0;
    }
}

// The counters that were shown begin anew from 0.
fn empty(deltas: &mut Vec<u64>, shown: &[Delta])
    ensures { (k : ℕ) → number_at deltas.new.items k
        ≡ (if is_among shown.now k then 0 else number_at deltas.old.items k) }
{
    for delta in shown {
        set_zero(deltas, delta.id);
    }
}

// Takes the half, and gives the parts.
fn take_parts(alloc: Global, sums: &mut Sums) -> Result<Vec<Part>, NoMemory>
    requires { value_count sums.old ≤ MAX_COUNT }
    ensures parts { IfOk result (λ parts. ArePartsOf
        (λ worker. bins_by (worker_values worker (sums.old.parents.round ++ (1, sums.old.half) ∷ []))) parts.items) }
    ensures emptied { OnOk result ((sums.new.parents.round ≡ []) × (sums.new.half.values ≡ [])) }
    ensures values { value_count sums.new ≡ value_count sums.old }
    ensures deltas { sums.new.deltas ≡ sums.old.deltas }
    ensures words { sums.new.words ≡ sums.old.words }
{
    sums.parents.take_half(alloc, SEAT, &mut sums.half)?;
    let parts = sums.parents.new_round(alloc)?;
    Ok(parts)
}

// The record of a flush that shows these counters and gauges. What it shows of counters and histograms begins anew.
fn take_record(
    alloc: Global,
    sums: &mut Sums,
    at: u64,
    counters: &[MetricId],
    gauges: &[MetricId],
) -> Result<FlushRecord, NoMemory>
    requires { value_count sums.old ≤ MAX_COUNT }
    ensures shows { IfOk result (λ flush. Shows sums.old at counters.now gauges.now flush) }
    ensures emptied { IfOk result (λ flush. IsEmptied sums.old flush sums.new) }
    ensures deltas { (k : ℕ) → delta_in sums.new k ≤ delta_in sums.old k }
    ensures values { value_count sums.new ≡ value_count sums.old }
{
    let deltas = deltas_of(alloc, &sums.deltas, counters)?;
    let gauges = readings_of(alloc, &sums.words, gauges)?;
    let parts = take_parts(alloc, sums)?;
    empty(&mut sums.deltas, &deltas);
    Ok(FlushRecord {
        at,
        deltas: List::of(deltas),
        gauges: List::of(gauges),
        parts: List::of(parts),
    })
}

/// The record of a flush that shows the counters among the first of these metrics, and the gauges among the second.
pub(crate) fn take_flush(
    alloc: Global,
    sums: &mut Sums,
    worker: &LoneWorker,
    at: u64,
    counters: &[MetricId],
    gauges: &[MetricId],
) -> Result<FlushRecord, NoMemory>
    requires counters { All (λ id. id.0 < length (state_of worker.now.book).metrics) counters.now }
    requires gauges { All (λ id. id.0 < length (state_of worker.now.book).metrics) gauges.now }
    requires few { value_count sums.old ≤ MAX_COUNT }
    ensures shows { let s = state_of worker.now.book in
        IfOk result (λ flush. Shows sums.old at (filter (is_of_kind Counter s) counters.now)
        (filter (is_of_kind Gauge s) gauges.now) flush) }
    ensures emptied { IfOk result (λ flush. IsEmptied sums.old flush sums.new) }
    ensures deltas { (k : ℕ) → delta_in sums.new k ≤ delta_in sums.old k }
    ensures values { value_count sums.new ≡ value_count sums.old }
{
    let counters = of_kind(alloc, worker, Kind::Counter, counters)?;
    let gauges = of_kind(alloc, worker, Kind::Gauge, gauges)?;
    take_record(alloc, sums, at, &counters, &gauges)
}
