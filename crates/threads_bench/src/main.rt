//! What threads share, counted, or timed by the words `words`, `asked`, `exchange`, `locks`
//! and `gates`.
#![tactic(auto)]

mod cells;
mod counters;
mod entries;
mod four;
mod gates;
mod gauges;
mod loads;
mod locks;
mod tally;
mod timing;
mod words;

use std::{env, io};

fn main(rt: HostRuntime) -> io::Result<()> {
    let mut args = env::args(&rt)?;
    args.next();
    let Some(word) = args.next() else {
        words::count(&rt)?;
        cells::count(&rt)?;
        entries::count(&rt)?;
        return gates::count(&rt);
    };
    match word.as_str() {
        "words" => words::time(&rt),
        "asked" => cells::time_polls(&rt),
        "exchange" => cells::time_rounds(&rt),
        "locks" => entries::time(&rt),
        "gates" => gates::time(&rt),
        _ => Ok(()),
    }
}
