//! The flushes of a run.
ghost use Rattle.std.specs.Prelude.{◌≡◌, ◌+◌, [], All, IsSome, IfOk, OnOk, length};
ghost use Rattle.flush_cells.specs.declared.passing.Pass.TheVariants.{Done};
ghost use Rattle.flush_cells.specs.Cells.{IsNotHolding};
ghost use Rattle.flush_cells.specs.Late.{pass_from};
ghost use Rattle.flusher.specs.Flusher.{IsFlusherOf};
ghost use Rattle.run_files.specs.Flushes.{HasFlushed, HasLooked, AreFlushings};

use crate::hall::Hall;
use flush_cells::Pass;
use flusher::Flusher;
use run_gates::Gate;
use stat_defs::{FlushRecord, NoMemory};
use std::sync::Wait;

/// What a flusher flushed, and the flusher.
#[derive(Drop)]
pub(crate) struct Flushings {
    pub(crate) records: Vec<FlushRecord>,
    pub(crate) flusher: Flusher,
}

// Passes over the workers' cells until each worker that was asked gave its half or left. Between two passes the flusher
// waits for a worker. One that wanted memory has not left, so each turn sees whether the run stops.
fn take_halves<R: Wait, G: Gate>(
    hall: &Hall<'_, R, G>,
    flusher: &mut Flusher,
) -> Result<(), NoMemory>
    requires own { IsFlusherOf hall.now.store.now flusher.old }
    requires begun { IsSome flusher.old.round }
    ensures looked { OnOk result (HasLooked hall.now.store.now flusher.old flusher.new) }
    ensures done { OnOk result ((pass_from 1 flusher.new.tokens ≡ Done) × All IsNotHolding flusher.new.tokens) }
{
    let mut looks = 0u32;
    for _ in hall.rt.forever() {
        if hall.is_stopped() {
            return Err(NoMemory);
        }
        match flusher.pass(hall.alloc, hall.store)? {
            Pass::Done => return Ok(()),
            Pass::Late(worker, _) => hall.bell.wait(hall.rt, looks, worker),
        }
        looks = looks.saturating_add(1);
    }
    unreachable!()
}

// Goes through the gate of this flush, and makes it, unless the run stops.
fn flush_one<R: Wait, G: Gate>(
    hall: &Hall<'_, R, G>,
    flusher: &mut Flusher,
    records: &mut Vec<FlushRecord>,
    round: u32,
) -> Result<(), NoMemory>
    requires { HasFlushed hall.now.store.now records.old.items flusher.old }
    ensures flushed { OnOk result (HasFlushed hall.now.store.now records.new.items flusher.new) }
    ensures count { OnOk result (length records.new.items ≡ length records.old.items + 1) }
{
    hall.gate.flusher_at(hall.rt, round);
    if hall.is_stopped() {
        return Err(NoMemory);
    }
    flusher.begin(hall.rt, hall.alloc, hall.store)?;
    take_halves(hall, flusher)?;
    let shown = flusher.flush(hall.alloc, hall.store)?;
    records.push(shown)?;
    Ok(())
}

// Flushes, one after another, up to their number.
fn flush_rounds<R: Wait, G: Gate>(
    hall: &Hall<'_, R, G>,
    flusher: &mut Flusher,
    rounds: u32,
) -> Result<Vec<FlushRecord>, NoMemory>
    requires { HasFlushed hall.now.store.now [] flusher.old }
    ensures flushed { IfOk result (λ records. HasFlushed hall.now.store.now records.items flusher.new) }
    ensures count { IfOk result (λ records. length records.items ≡ rounds) }
{
    let mut records = Vec::new(hall.alloc);
    for round in 0..rounds {
        flush_one(hall, flusher, &mut records, round + 1)?;
    }
    Ok(records)
}

/// Makes this number of flushes, each behind the gate. May wait. It returns without the rest where the run stops.
pub(crate) fn flush_all<R: Wait, G: Gate>(
    hall: &Hall<'_, R, G>,
    mut flusher: Flusher,
    rounds: u32,
) -> Result<Flushings, NoMemory>
    requires { HasFlushed hall.now.store.now [] flusher }
    ensures { IfOk result (AreFlushings hall.now.store.now rounds) }
{
    match flush_rounds(hall, &mut flusher, rounds) {
        Ok(records) => Ok(Flushings { records, flusher }),
        Err(refused) => {
            drop(flusher);
            Err(refused)
        }
    }
}
