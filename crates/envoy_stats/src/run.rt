//! `run [--symbols] [--format F] BOOT FILE..`.
ghost use Rattle.std.specs.Prelude.{◌≤◌, IfOk, length, map, string_bytes};
ghost use Rattle.file_reading.specs.declared.limits.TheConstants as limits;
ghost use Rattle.run_report.specs.RunReport.{IsRunOf};
ghost use Rattle.stats_commands.specs.World.{world, sight};
ghost use Rattle.stats_commands.specs.Replay.{IsBuilt, Records};
ghost use Rattle.envoy_stats.specs.Running.{Runs};

use boot_load::{Boot, LoadFault, load};
use command_words::Reporting;
use name_map::HashKey;
use run_files::Setup;
use run_report::run_names;
use stat_defs::{NoMemory, Reported};
use stats_commands::{Outcome, Recorded, give_up, refuse_boot, tell};
use stats_io::{Shelf, Sink};
use std::alloc::Global;
use std::sync::Wait;
use std::thread::Threads;
use tag_rules::PatternMaker;

// Runs files under a bootstrap that was loaded.
fn record<R: Threads + Wait + Sync, F: Shelf>(
    rt: &R,
    alloc: Global,
    key: HashKey,
    boot: Boot,
    files: &[String],
    shelf: &mut F,
) -> Result<Recorded, NoMemory>
    requires built { IsBuilt boot }
    requires some { 1 ≤ length files.now }
    requires few { length files.now ≤ limits.MAX_FILES }
    ensures { IfOk result (Records (IsRunOf F.state F.S.state (F.holds shelf.old)) boot.config
        (map string_bytes files.now) shelf.old shelf.new) }
{
    let Boot {
        config,
        rules,
        matcher,
        buckets,
        view_rules: _,
    } = boot;
    let setup = Setup {
        key,
        config: &config,
        rules,
        matcher,
    };
    let Reported { report, names } = run_names(rt, alloc, setup, files, shelf)?;
    Ok(Recorded {
        report,
        names,
        config,
        buckets,
    })
}

/// Loads a bootstrap, applies the events of the files side by side, a worker a file, beside a flusher and a reader, and
/// writes what the options ask for. May wait.
pub fn run<R: Threads + Wait + Sync, K: PatternMaker, F: Shelf, O: Sink, E: Sink>(
    rt: &R,
    alloc: Global,
    key: HashKey,
    asked: &Reporting,
    maker: &mut K,
    shelf: &mut F,
    out: &mut O,
    err: &mut E,
) -> Outcome
    ensures { Runs (sight K.memory F.holds F.state F.S.state O.state E.state)
        (world maker.old shelf.old out.old err.old) (world maker.new shelf.new out.new err.new)
        asked.now.options (string_bytes asked.now.boot) (map string_bytes asked.now.files.items) result }
{
    match load(alloc, asked.boot.as_str(), maker, shelf) {
        Ok(boot) => match record(rt, alloc, key, boot, &asked.files, shelf) {
            Ok(recorded) => tell(alloc, asked.options, recorded, out, err),
            Err(NoMemory) => give_up(err),
        },
        Err(LoadFault::NoMemory) => give_up(err),
        Err(fault) => refuse_boot(alloc, &fault, err),
    }
}
