//! The statistics store as a program: `run` applies event files side by side and writes all flushes and readings,
//! `replay` applies them one after another and writes one flush, `check` tries a bootstrap, `bins` writes the bins of
//! values, and `load` applies events that it makes itself.
#![tactic(auto)]

ghost use Rattle.std.specs.Prelude.{◌≡◌, IfOk, IfErr, map, string_bytes};
ghost use Rattle.stats_commands.specs.World.{world, sight};
ghost use Rattle.stats_commands.specs.Outcome.{IsUnreadable};
ghost use Rattle.envoy_stats.specs.Running.{Serves};

mod asked;
#[cfg(test)]
mod failing_parts;
mod laws;
mod load;
mod program;
mod run;
#[cfg(test)]
mod run_rows;

pub use flush_view::flush_view;
pub use laws::{loads_alike, program_fails_by_cause, program_keeps_the_table};
use name_map::HashKey;
pub use program::{envoy_stats, envoy_stats_with};
use stats_commands::{NO_COMMAND, NO_MEMORY, OUT_OF_MEMORY, USAGE, say};
pub use stats_commands::{Outcome, quiet_stats, quiet_stats_with};
use stats_io::{FolderShelf, Shelf, Sink, StdSink};
use std::alloc::Global;
use std::io::{Stderr, Stdout};
use std::process::ExitCode;
use std::random::RandomSource;
use std::rt::Env;
use std::sync::Wait;
use std::thread::Threads;
use std::{io, mem};
use tag_rules::{PatternMaker, RegexMaker};

// The words of the command line without the program's name.
fn words_of<R: Env + AllocGlobal>(rt: &R) -> io::Result<Vec<String>> {
    let mut words = Vec::new(rt.alloc());
    for word in std::env::args(rt)?.skip(1) {
        words.push(word)?;
    }
    Ok(words)
}

// Says why the words could not be read, and gives the status: want of memory, or a word that is no text.
fn refuse<E: Sink>(err: &mut E, fault: io::Error) -> u8
    ensures { IsUnreadable (E.state err.old) (E.state err.new) fault result }
{
    if fault.kind() == io::ErrorKind::OutOfMemory {
        say(err, OUT_OF_MEMORY);
        return NO_MEMORY;
    }
    say(err, USAGE);
    NO_COMMAND
}

// The status of a call with these words, where they could be read.
fn serve<R: Threads + Wait + Sync, K: PatternMaker, F: Shelf, O: Sink, E: Sink>(
    rt: &R,
    alloc: Global,
    key: HashKey,
    words: io::Result<Vec<String>>,
    maker: &mut K,
    shelf: &mut F,
    out: &mut O,
    err: &mut E,
) -> u8
    ensures called { IfOk words (λ read. Serves (sight K.memory F.holds F.state F.S.state O.state E.state)
        (world maker.old shelf.old out.old err.old) (world maker.new shelf.new out.new err.new)
        (map string_bytes read.items) result) }
    ensures unread { IfErr words (λ fault. (maker.new ≡ maker.old) × (shelf.new ≡ shelf.old) × (out.new ≡ out.old)
        × IsUnreadable (E.state err.old) (E.state err.new) fault result) }
{
    match words {
        Ok(words) => {
            let outcome = envoy_stats_with(rt, alloc, key, &words, maker, shelf, out, err);
            let status = outcome.status;
            // The process ends next and gives all memory back at once: to drop a long log takes time.
            mem::forget(outcome);
            status
        }
        Err(fault) => refuse(err, fault),
    }
}

// The key of this run. Where the system draws none, the fixed one serves: only speed depends on it.
fn drawn_key<R: RandomSource>(rt: &R) -> HashKey {
    match HashKey::drawn(rt) {
        Ok(key) => key,
        Err(_) => HashKey::fixed(),
    }
}

fn main(rt: HostRuntime) -> ExitCode {
    let mut maker = RegexMaker::new(Vec::new(rt.alloc()));
    let mut shelf = FolderShelf::new(&rt);
    let mut out = StdSink::new(rt.stdout());
    let mut err = StdSink::new(rt.stderr());
    let words = words_of(&rt);
    let key = drawn_key(&rt);
    let status = serve::<
        HostRuntime,
        RegexMaker,
        FolderShelf<'_, HostRuntime>,
        StdSink<Stdout>,
        StdSink<Stderr>,
    >(
        &rt,
        rt.alloc(),
        key,
        words,
        &mut maker,
        &mut shelf,
        &mut out,
        &mut err,
    );
    ExitCode::from(status)
}
