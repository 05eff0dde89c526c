//! What one flush took.
ghost use Rattle.std.specs.Prelude.{◌≡◌, None, IfOk, replicate};
ghost use Rattle.flush_view.specs.Sums.{with_deltas, with_readings, with_parts, HasRoomForAll};

use crate::sums::{add_deltas, add_parts, add_readings, no_bins, no_sums};
use loglinear_bins::Bins;
use stat_defs::{FlushRecord, NoMemory};
use std::alloc::Global;

/// What one flush took, by the numbers of metrics.
#[derive(Drop)]
pub(crate) struct Taken {
    pub(crate) units: Vec<u64>,
    pub(crate) words: Vec<u64>,
    pub(crate) intervals: Vec<Option<Bins>>,
}

fn units_by(alloc: Global, count: usize, flush: &FlushRecord) -> Result<Vec<u64>, NoMemory>
    ensures { IfOk result (λ units. units.items ≡ with_deltas (replicate count 0) flush.now.deltas) }
{
    let mut units = no_sums(alloc, count)?;
    add_deltas(&mut units, flush.deltas.items());
    Ok(units)
}

fn words_by(alloc: Global, count: usize, flush: &FlushRecord) -> Result<Vec<u64>, NoMemory>
    ensures { IfOk result (λ words. words.items ≡ with_readings (replicate count 0) flush.now.gauges) }
{
    let mut words = no_sums(alloc, count)?;
    add_readings(&mut words, flush.gauges.items());
    Ok(words)
}

fn intervals_by(
    alloc: Global,
    count: usize,
    flush: &FlushRecord,
) -> Result<Vec<Option<Bins>>, NoMemory>
    requires { HasRoomForAll (replicate count None) flush.now.parts }
    ensures { IfOk result (λ slots. slots.items ≡ with_parts (replicate count None) flush.now.parts) }
{
    let mut intervals = no_bins(alloc, count)?;
    add_parts(alloc, &mut intervals, flush.parts.items())?;
    Ok(intervals)
}

/// What a flush took of so many metrics.
pub(crate) fn taken_by(alloc: Global, count: usize, flush: &FlushRecord) -> Result<Taken, NoMemory>
    requires { HasRoomForAll (replicate count None) flush.now.parts }
    ensures units { IfOk result (λ taken. taken.units.items ≡ with_deltas (replicate count 0) flush.now.deltas) }
    ensures words { IfOk result (λ taken. taken.words.items ≡ with_readings (replicate count 0) flush.now.gauges) }
    ensures bins { IfOk result (λ taken. taken.intervals.items ≡ with_parts (replicate count None) flush.now.parts) }
{
    Ok(Taken {
        units: units_by(alloc, count, flush)?,
        words: words_by(alloc, count, flush)?,
        intervals: intervals_by(alloc, count, flush)?,
    })
}
