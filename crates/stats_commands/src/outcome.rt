//! How a call ends.
ghost use Rattle.std.specs.Prelude.{◌≡◌, ◌≢◌, None};
ghost use Rattle.boot_load.specs.declared.fault.LoadFault.TheVariants as unloaded;
ghost use Rattle.stats_commands.specs.FaultLines.{out_of_memory};
ghost use Rattle.stats_commands.specs.Outcome.{IsSaid, IsPrinted, status_of_boot, boot_faults_of};
ghost use Rattle.stats_commands.specs.Replay.{RefusesBoot};
ghost use Rattle.stats_commands.specs.declared.status.TheConstants as statuses;

use crate::status;
use crate::telling::{OUT_OF_MEMORY, WRITE_FAILED, say};
use boot_load::{LoadFault, boot_line};
use stat_defs::{NoMemory, Report};
use stats_io::{Sink, WriteFault, push_all};
use std::alloc::Global;

/// How a call ended: its status, what it recorded where it got so far, and how many faults the source of the bootstrap
/// counted where a pull of it failed, else 0.
#[derive(Drop, Debug)]
pub struct Outcome {
    pub status: u8,
    pub report: Option<Report>,
    pub boot_faults: u64,
}

/// Says that memory was wanting.
pub fn give_up<E: Sink>(err: &mut E) -> Outcome
    ensures outcome { result ≡ record { status = statuses.NO_MEMORY; report = None; boot_faults = 0 } }
    ensures said { IsSaid (E.state err.old) (E.state err.new) out_of_memory }
{
    say(err, OUT_OF_MEMORY);
    Outcome {
        status: status::NO_MEMORY,
        report: None,
        boot_faults: 0,
    }
}

fn status_of_boot(fault: &LoadFault) -> u8
    ensures { result ≡ status_of_boot fault.now }
{
    match fault {
        LoadFault::TooBig | LoadFault::Faulty(_) | LoadFault::BadPattern(_) => status::BAD_BOOT,
        LoadFault::OpenFailed | LoadFault::ReadFailed(_) => status::UNREADABLE,
        LoadFault::NoMemory => status::NO_MEMORY,
    }
}

// How many faults the source of the bootstrap has counted.
fn boot_faults_of(fault: &LoadFault) -> u64
    ensures { result ≡ boot_faults_of fault.now }
{
    match fault {
        LoadFault::ReadFailed(count) => *count,
        LoadFault::TooBig | LoadFault::Faulty(_) | LoadFault::BadPattern(_) => 0,
        LoadFault::OpenFailed | LoadFault::NoMemory => 0,
    }
}

/// Says why the bootstrap was not loaded.
pub fn refuse_boot<E: Sink>(alloc: Global, fault: &LoadFault, err: &mut E) -> Outcome
    requires { fault.now ≢ unloaded.NoMemory }
    ensures { RefusesBoot (E.state err.old) (E.state err.new) fault.now result }
{
    match boot_line(alloc, fault) {
        Ok(line) => {
            say(err, &line);
            Outcome {
                status: status_of_boot(fault),
                report: None,
                boot_faults: boot_faults_of(fault),
            }
        }
        Err(NoMemory) => give_up(err),
    }
}

/// Writes a text that is all that a call writes, and says where a push failed.
pub fn print<O: Sink, E: Sink>(text: &[u8], out: &mut O, err: &mut E) -> u8
    ensures { IsPrinted (O.state out.old) (O.state out.new) (E.state err.old) (E.state err.new) text.now result }
{
    match push_all(out, text) {
        Ok(()) => status::DONE,
        Err(WriteFault) => {
            say(err, WRITE_FAILED);
            status::UNWRITTEN
        }
    }
}
