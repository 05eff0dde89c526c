//! Files in memory. They are made before a run, so that no line is made while it is timed.

use crate::words::Plan;
use script_source::ScriptSource;
use stat_defs::NoMemory;
use stats_io::{PULL_BYTES, SureSource, pull_up_to};
use std::alloc::Global;
use worker_run::Given;

/// No script has more bytes.
const MOST_BYTES: usize = 1 << 22;

// The line of an event of a mix as scripts have, under names that only this worker has.
fn own_line(alloc: Global, worker: u32, event: u32) -> Result<String, NoMemory> {
    let place = event / 4;
    let n = event % 1_000;
    Ok(match event % 4 {
        2 => format!(in alloc; "rec root h{}w{worker} {n}\n", place % 16)?,
        3 => format!(in alloc; "add root g{worker} acc {n}\n")?,
        _ => format!(in alloc; "inc root c{}w{worker} {n}\n", event % 256)?,
    })
}

fn own_bytes(alloc: Global, worker: u32, events: u32) -> Result<Vec<u8>, NoMemory> {
    let mut bytes = Vec::new(alloc);
    for event in 0..events {
        bytes.extend_from_slice(own_line(alloc, worker, event)?.as_bytes())?;
    }
    Ok(bytes)
}

// A script: the counters and histograms of all have the same names.
fn script_bytes(alloc: Global, worker: u32, events: u32) -> Result<Vec<u8>, NoMemory> {
    let mut bytes = Vec::new(alloc);
    let mut source = ScriptSource::new(worker, events);
    let _pulled = pull_up_to(alloc, &mut source, MOST_BYTES, &mut bytes)?;
    Ok(bytes)
}

/// A file for each worker.
pub(crate) fn files_of(alloc: Global, plan: &Plan) -> Result<Vec<Given<SureSource>>, NoMemory> {
    let mut files = Vec::new(alloc);
    for place in 0..plan.workers {
        let worker = place.wrapping_add(1);
        let bytes = if plan.own {
            own_bytes(alloc, worker, plan.events)?
        } else {
            script_bytes(alloc, worker, plan.events)?
        };
        let source = SureSource::new(String::new(alloc), bytes, PULL_BYTES);
        files.push(Given::Opened(source))?;
    }
    Ok(files)
}
