//! `load --run W E`.
ghost use Rattle.std.specs.Prelude.{◌≡◌, IfOk};
ghost use Rattle.load_run.specs.LoadRun.{IsLoadRunOf};
ghost use Rattle.stats_commands.specs.World.{world, sight};
ghost use Rattle.stats_commands.specs.Outcome.{Summarizes};
ghost use Rattle.stats_commands.specs.Replay.{IsBuilt};
ghost use Rattle.stats_commands.specs.Summing.{Applies};

use boot_load::{Boot, LoadFault, load as load_boot};
use command_words::Load;
use load_run::run_scripts;
use name_map::HashKey;
use run_files::Setup;
use stat_defs::{NoMemory, Reported};
use stats_commands::{Outcome, Recorded, give_up, refuse_boot, tell_summary};
use stats_io::{Shelf, Sink};
use std::alloc::Global;
use std::sync::Wait;
use std::thread::Threads;
use tag_rules::PatternMaker;

// Runs scripts under a bootstrap that was loaded and asks for no flush but the last.
fn record<R: Threads + Wait + Sync>(
    rt: &R,
    alloc: Global,
    key: HashKey,
    boot: Boot,
    asked: Load,
) -> Result<Recorded, NoMemory>
    requires built { IsBuilt boot }
    requires no_flush { boot.config.flushes ≡ 0 }
    ensures { IfOk result (Applies IsLoadRunOf boot.config asked.scripts asked.events) }
{
    let Boot {
        config,
        rules,
        matcher,
        buckets,
        view_rules: _,
    } = boot;
    let Load {
        scripts,
        events,
        ..
    } = asked;
    let setup = Setup {
        key,
        config: &config,
        rules,
        matcher,
    };
    let Reported { report, names } = run_scripts(rt, alloc, setup, scripts, events)?;
    Ok(Recorded {
        report,
        names,
        config,
        buckets,
    })
}

/// Applies the events of scripts side by side under the usual bootstrap, a worker a script, and writes a summary. May
/// wait.
pub fn load<R: Threads + Wait + Sync, K: PatternMaker, F: Shelf, O: Sink, E: Sink>(
    rt: &R,
    alloc: Global,
    key: HashKey,
    asked: Load,
    maker: &mut K,
    shelf: &mut F,
    out: &mut O,
    err: &mut E,
) -> Outcome
    ensures { Summarizes (sight K.memory F.holds F.state F.S.state O.state E.state)
        (world maker.old shelf.old out.old err.old) (world maker.new shelf.new out.new err.new)
        IsLoadRunOf asked.scripts asked.events result }
{
    match load_boot(alloc, "-", maker, shelf) {
        Ok(boot) => match record(rt, alloc, key, boot, asked) {
            Ok(recorded) => tell_summary(alloc, asked, recorded, out, err),
            Err(NoMemory) => give_up(err),
        },
        Err(LoadFault::NoMemory) => give_up(err),
        Err(fault) => refuse_boot(alloc, &fault, err),
    }
}
