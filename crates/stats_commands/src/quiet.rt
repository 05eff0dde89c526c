//! The commands that start no thread.
ghost use Rattle.std.specs.Prelude.{◌≡◌, None, map, option_map, string_bytes};
ghost use Rattle.std.specs.Option.{option_and_then};
ghost use Rattle.command_words.specs.Views.{said_as};
ghost use Rattle.stats_commands.specs.Quiet.{quiet_command, without_threads};
ghost use Rattle.stats_commands.specs.FaultLines.{usage};
ghost use Rattle.stats_commands.specs.World.{world, sight};
ghost use Rattle.stats_commands.specs.Outcome.{IsSaid, IsCall};
ghost use Rattle.stats_commands.specs.declared.status.TheConstants as statuses;

use crate::bins::bins;
use crate::check::check;
use crate::load::load;
use crate::outcome::{Outcome, give_up};
use crate::replay::replay;
use crate::status;
use crate::telling::{USAGE, say};
use command_words::{Command, command_of};
use name_map::HashKey;
use stat_defs::NoMemory;
use stats_io::{Shelf, Sink};
use std::alloc::Global;
use tag_rules::PatternMaker;

// Says that the words are no command.
fn refuse_words<E: Sink>(err: &mut E) -> Outcome
    ensures outcome { result ≡ record { status = statuses.NO_COMMAND; report = None; boot_faults = 0 } }
    ensures said { IsSaid (E.state err.old) (E.state err.new) usage }
{
    say(err, USAGE);
    Outcome {
        status: status::NO_COMMAND,
        report: None,
        boot_faults: 0,
    }
}

/// What comes of a command that was read, or of words that are none: as [`quiet_stats_with`] tells.
pub fn serve_quiet<K: PatternMaker, F: Shelf, O: Sink, E: Sink>(
    alloc: Global,
    key: HashKey,
    command: Option<Command>,
    maker: &mut K,
    shelf: &mut F,
    out: &mut O,
    err: &mut E,
) -> Outcome
    ensures { IsCall (sight K.memory F.holds F.state F.S.state O.state E.state)
        (world maker.old shelf.old out.old err.old) (world maker.new shelf.new out.new err.new)
        (option_and_then without_threads (option_map said_as command)) result }
{
    let Some(command) = command else {
        return refuse_words(err);
    };
    match command {
        Command::Run(_) => refuse_words(err),
        Command::Replay(asked) => replay(alloc, key, &asked, maker, shelf, out, err),
        Command::Check { boot } => check(alloc, boot.as_str(), maker, shelf, out, err),
        Command::Bins { values } => bins(alloc, &values, out, err),
        Command::Load(asked) => {
            if asked.run {
                refuse_words(err)
            } else {
                load(alloc, key, asked, maker, shelf, out, err)
            }
        }
    }
}

/// The commands that start no thread: `run` and `load --run` are none here. `replay [--symbols] [--format F] BOOT FILE..`
/// loads a bootstrap, applies the events of 1 to 32 files one after another to one store, and writes its one flush in the
/// format that is asked for: `statsd`, which is usual, `prom` or `admin`. `check BOOT` loads a bootstrap with all its
/// patterns and writes a line on it. `bins V..` writes the bin of each of 1 to 64 values. `load W E` applies the events
/// of 1 to 32 scripts that it makes, of 1 to 131,072 events each, one after another under the usual bootstrap, and writes
/// a summary.
///
/// - Status 0: every file was read to its end, or the command has none, and all was written.
/// - Status 1: the words are no command. Nothing was opened or written.
/// - Status 2: the bootstrap was read, or is `-`, and is at fault, or one of its patterns was refused. Nothing was
///   written.
/// - Status 3: the first file that was not read whole has a line of no meaning or past a limit. What stands before is
///   applied.
/// - Status 4: that file could not be opened or read on; the whole lines before that are applied. Or the bootstrap
///   could not be read, and nothing was written.
/// - Status 5: a push on `out` failed. A front of the output was written.
/// - Status 6: memory was wanting.
///
/// `err` is told each of these but 0, in a line, and every file that was not read whole has its line. A fault of `err`
/// changes nothing else. Names are looked up under the key, which only speed depends on.
pub fn quiet_stats_with<K: PatternMaker, F: Shelf, O: Sink, E: Sink>(
    alloc: Global,
    key: HashKey,
    words: &[String],
    maker: &mut K,
    shelf: &mut F,
    out: &mut O,
    err: &mut E,
) -> Outcome
    // Status 1 is that of words that are no command, and what comes of each command is told by one relation each.
    ensures { IsCall (sight K.memory F.holds F.state F.S.state O.state E.state)
        (world maker.old shelf.old out.old err.old) (world maker.new shelf.new out.new err.new)
        (quiet_command (map string_bytes words.now)) result }
{
    match command_of(alloc, words) {
        Ok(command) => serve_quiet(alloc, key, command, maker, shelf, out, err),
        Err(NoMemory) => give_up(err),
    }
}

/// The same under the fixed key: what is written and said does not depend on it.
pub fn quiet_stats<K: PatternMaker, F: Shelf, O: Sink, E: Sink>(
    alloc: Global,
    words: &[String],
    maker: &mut K,
    shelf: &mut F,
    out: &mut O,
    err: &mut E,
) -> Outcome
    // Status 1 is that of words that are no command, and what comes of each command is told by one relation each.
    ensures { IsCall (sight K.memory F.holds F.state F.S.state O.state E.state)
        (world maker.old shelf.old out.old err.old) (world maker.new shelf.new out.new err.new)
        (quiet_command (map string_bytes words.now)) result }
{
    quiet_stats_with(alloc, HashKey::fixed(), words, maker, shelf, out, err)
}
