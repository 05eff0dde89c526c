//! What flushes took, by the numbers of metrics.
ghost use Rattle.std.specs.Prelude.{◌≡◌, ◌≤◌, ◌+◌, None, IfOk, OnOk, replicate, slice_index};
ghost use Rattle.loglinear_bins.specs.declared.place.TheConstants.{MAX_COUNT};
ghost use Rattle.loglinear_bins.specs.Counts.{AreLawful, merged, total};
ghost use Rattle.merge_round.specs.Slots.{held, bins_at, is_warm_at};
ghost use Rattle.flush_view.specs.Sums.{added_at, with_deltas, with_readings, with_part, with_parts, HasRoomFor};
ghost use Rattle.flush_view.specs.Sums.{HasRoomForAll};

use loglinear_bins::Bins;
use stat_defs::{BinCount, BinList, Delta, List, MetricId, NoMemory, Part, Reading};
use std::alloc::Global;

/// So many sums of nothing.
pub(crate) fn no_sums(alloc: Global, n: usize) -> Result<Vec<u64>, NoMemory>
    ensures { IfOk result (λ sums. sums.items ≡ replicate n 0) }
{
    Ok(vec![in alloc; 0; n]?)
}

/// So many histograms without a value.
pub(crate) fn no_bins(alloc: Global, n: usize) -> Result<Vec<Option<Bins>>, NoMemory>
    ensures { IfOk result (λ slots. slots.items ≡ replicate n None) }
{
    let mut slots = Vec::new(alloc);
    for _i in 0..n {
        slots.push(None)?;
    }
    Ok(slots)
}

fn add_at(sums: &mut [u64], id: MetricId, n: u64)
    ensures { sums.new ≡ added_at sums.old id.0 n }
{
    let place = id.0 as usize;
    if place < sums.len() {
        sums[place] = sums[place].saturating_add(n);
    }
}

/// Adds the units of counters.
pub(crate) fn add_deltas(sums: &mut [u64], deltas: &[Delta])
    ensures { sums.new ≡ with_deltas sums.old deltas.now }
{
    for delta in deltas {
        add_at(sums, delta.id, delta.n);
    }
}

/// Adds the words of gauges.
pub(crate) fn add_readings(sums: &mut [u64], readings: &[Reading])
    ensures { sums.new ≡ with_readings sums.old readings.now }
{
    for reading in readings {
        add_at(sums, reading.id, reading.word);
    }
}

// The histogram of a slot, which has no value where there is none.
fn held_or_new(alloc: Global, slot: Option<Bins>) -> Result<Bins, NoMemory>
    ensures { IfOk result (λ bins. bins ≡ held slot) }
{
    match slot {
        Some(bins) => Ok(bins),
        None => Ok(Bins::new(alloc)?),
    }
}

fn joined(alloc: Global, slot: Option<Bins>, more: &[BinCount]) -> Result<Bins, NoMemory>
    requires lawful { AreLawful more.now }
    requires few { total (held slot) + total more.now ≤ MAX_COUNT }
    ensures { IfOk result (λ bins. bins ≡ merged (held slot) more.now) }
{
    let mut bins = held_or_new(alloc, slot)?;
    bins.merge_pairs(more);
    Ok(bins)
}

fn add_part(alloc: Global, slots: &mut [Option<Bins>], part: &Part) -> Result<(), NoMemory>
    requires { HasRoomFor slots.old part.now }
    ensures { OnOk result (slots.new ≡ with_part slots.old part.now) }
{
    let place = part.id.0 as usize;
    if place < slots.len() {
        let slot = slots[place].take();
        slots[place] = Some(joined(alloc, slot, part.bins.items())?);
    }
    Ok(())
}

/// Adds the values of histograms.
pub(crate) fn add_parts(
    alloc: Global,
    slots: &mut [Option<Bins>],
    parts: &[Part],
) -> Result<(), NoMemory>
    requires { HasRoomForAll slots.old parts.now }
    ensures { OnOk result (slots.new ≡ with_parts slots.old parts.now) }
{
    for part in parts {
        add_part(alloc, slots, part)?;
    }
    Ok(())
}

/// The sum at a place, which is 0 behind the last.
pub(crate) fn sum_at(sums: &[u64], id: usize) -> u64
    ensures { result ≡ slice_index sums.now id }
{
    if id < sums.len() { sums[id] } else { 0 }
}

/// Whether there is a histogram at a place.
pub(crate) fn has_bins_at(slots: &[Option<Bins>], id: usize) -> bool
    ensures { result ≡ is_warm_at slots.now id }
{
    if id >= slots.len() {
        return false;
    }
    slots[id].is_some()
}

fn pairs_of(alloc: Global, slot: &Option<Bins>) -> Result<BinList, NoMemory>
    ensures { IfOk result (λ pairs. pairs ≡ held slot.now) }
{
    match slot {
        Some(bins) => bins.pairs(alloc),
        None => Ok(List::of(Vec::new(alloc))),
    }
}

/// The bins of the histogram at a place, which has none behind the last.
pub(crate) fn pairs_at(
    alloc: Global,
    slots: &[Option<Bins>],
    id: usize,
) -> Result<BinList, NoMemory>
    ensures { IfOk result (λ pairs. pairs ≡ bins_at slots.now id) }
{
    if id >= slots.len() {
        return Ok(List::of(Vec::new(alloc)));
    }
    pairs_of(alloc, &slots[id])
}
