//! The readings of a run.
ghost use Rattle.std.specs.Prelude.{◌≡◌, ◌+◌, [], IfOk, OnOk, length};
ghost use Rattle.run_files.specs.Readings.{HasRead, AreReadings};

use crate::hall::Hall;
use admin_side::Admin;
use run_gates::Gate;
use stat_defs::{NoMemory, ReadRecord};
use std::sync::Wait;

/// What a reader read, and the reader.
#[derive(Drop)]
pub(crate) struct Readings {
    pub(crate) records: Vec<ReadRecord>,
    pub(crate) admin: Admin,
}

// Goes through the gate of this reading, and makes it, unless the run stops.
fn read_one<R: Wait, G: Gate>(
    hall: &Hall<'_, R, G>,
    admin: &mut Admin,
    records: &mut Vec<ReadRecord>,
    round: u32,
) -> Result<(), NoMemory>
    requires { HasRead hall.now.store.now records.old.items admin.old }
    ensures read { OnOk result (HasRead hall.now.store.now records.new.items admin.new) }
    ensures count { OnOk result (length records.new.items ≡ length records.old.items + 1) }
{
    hall.gate.reader_at(hall.rt, round);
    if hall.is_stopped() {
        return Err(NoMemory);
    }
    let store = hall.store;
    let shown = admin.read(&store.book, hall.alloc, &store.counters, &store.gauges)?;
    records.push(shown)?;
    Ok(())
}

// Readings, one after another, up to their number.
fn read_rounds<R: Wait, G: Gate>(
    hall: &Hall<'_, R, G>,
    admin: &mut Admin,
    rounds: u32,
) -> Result<Vec<ReadRecord>, NoMemory>
    requires { HasRead hall.now.store.now [] admin.old }
    ensures read { IfOk result (λ records. HasRead hall.now.store.now records.items admin.new) }
    ensures count { IfOk result (λ records. length records.items ≡ rounds) }
{
    let mut records = Vec::new(hall.alloc);
    for round in 0..rounds {
        read_one(hall, admin, &mut records, round + 1)?;
    }
    Ok(records)
}

/// Makes this number of readings, each behind the gate, which may wait. It returns without the rest where the run stops.
pub(crate) fn read_all<R: Wait, G: Gate>(
    hall: &Hall<'_, R, G>,
    mut admin: Admin,
    rounds: u32,
) -> Result<Readings, NoMemory>
    requires { HasRead hall.now.store.now [] admin }
    ensures { IfOk result (AreReadings hall.now.store.now rounds) }
{
    match read_rounds(hall, &mut admin, rounds) {
        Ok(records) => Ok(Readings { records, admin }),
        Err(refused) => {
            drop(admin);
            Err(refused)
        }
    }
}
