//! What `run_files` takes for files in memory. Without words it makes short runs and prints what every schedule gives;
//! with the words `WORKERS FLUSHES READS` it prints the time of one run whose workers have as many events as a script
//! may have, all under the same names, or with a word more behind them each under names of its own.
#![tactic(auto)]

mod files;
mod running;
mod words;

use std::{env, io};
use words::{Plan, plan_of};

/// Events of a worker where what was made is counted.
const FEW: u32 = 1_000;

fn main(rt: HostRuntime) -> io::Result<()> {
    let mut args = env::args(&rt)?;
    args.next();
    if let Some(plan) = plan_of(&mut args) {
        return running::tell(&rt, &plan, true);
    }
    for own in [false, true] {
        let plan = Plan {
            workers: 4,
            flushes: 8,
            reads: 8,
            events: FEW,
            own,
        };
        running::tell(&rt, &plan, false)?;
    }
    Ok(())
}
