//! What a store that threads share costs. Without words each measure makes a short run and prints a count that every
//! schedule gives; with a number of rounds, from 1 to 130, it prints times; with a name behind it, of that measure alone.
#![tactic(auto)]

mod calls;
mod events;
mod opening;
mod party;
mod rounds;
mod sides;
mod threads;
mod timing;

use std::{env, io};
use timing::Wanted;

fn main(rt: HostRuntime) -> io::Result<()> {
    let mut args = env::args(&rt)?;
    args.next();
    let rounds = match args.next() {
        Some(word) => word.as_str().parse::<u32>().unwrap_or(1),
        None => 0,
    };
    let wanted = Wanted {
        rounds,
        only: args.next(),
    };
    calls::measure(&rt, &wanted)?;
    rounds::measure(&rt, &wanted)
}
