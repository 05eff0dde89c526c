//! `load W E`.
ghost use Rattle.std.specs.Prelude.{IfOk};
ghost use Rattle.load_report.specs.LoadReport.{IsLoadOf};
ghost use Rattle.stats_commands.specs.World.{world, sight};
ghost use Rattle.stats_commands.specs.Outcome.{Summarizes};
ghost use Rattle.stats_commands.specs.Replay.{IsBuilt};
ghost use Rattle.stats_commands.specs.Summing.{Applies};

use crate::outcome::{Outcome, give_up, refuse_boot};
use crate::replay::Recorded;
use crate::summing::tell_summary;
use boot_load::{Boot, LoadFault, load as load_boot};
use command_words::Load;
use load_report::load_report;
use name_map::HashKey;
use stat_defs::{NoMemory, Reported};
use stats_io::{Shelf, Sink};
use std::alloc::Global;
use tag_rules::PatternMaker;

// Applies scripts under a bootstrap that was loaded.
fn record(alloc: Global, key: HashKey, boot: Boot, asked: Load) -> Result<Recorded, NoMemory>
    requires { IsBuilt boot }
    ensures { IfOk result (Applies IsLoadOf boot.config asked.scripts asked.events) }
{
    let Boot {
        config,
        rules,
        matcher,
        buckets,
        view_rules: _,
    } = boot;
    let Load {
        scripts,
        events,
        ..
    } = asked;
    let Reported { report, names } = load_report(
        alloc, key, &config, rules, matcher, scripts, events,
    )?;
    Ok(Recorded {
        report,
        names,
        config,
        buckets,
    })
}

/// Applies the events of scripts one after another under the usual bootstrap, and writes a summary.
pub fn load<K: PatternMaker, F: Shelf, O: Sink, E: Sink>(
    alloc: Global,
    key: HashKey,
    asked: Load,
    maker: &mut K,
    shelf: &mut F,
    out: &mut O,
    err: &mut E,
) -> Outcome
    ensures { Summarizes (sight K.memory F.holds F.state F.S.state O.state E.state)
        (world maker.old shelf.old out.old err.old) (world maker.new shelf.new out.new err.new)
        IsLoadOf asked.scripts asked.events result }
{
    match load_boot(alloc, "-", maker, shelf) {
        Ok(boot) => match record(alloc, key, boot, asked) {
            Ok(recorded) => tell_summary(alloc, asked, recorded, out, err),
            Err(NoMemory) => give_up(err),
        },
        Err(LoadFault::NoMemory) => give_up(err),
        Err(fault) => refuse_boot(alloc, &fault, err),
    }
}
