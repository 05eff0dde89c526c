//! The report of files.
ghost use Rattle.std.specs.Prelude.{◌≡◌, ◌≤◌, length, map, string_bytes, IfOk};
ghost use Rattle.stat_defs.specs.Configs.{IsConfig};
ghost use Rattle.ledger.specs.Ledger.{HasNames, plan_of};
ghost use Rattle.file_reading.specs.declared.limits.TheConstants as limits;
ghost use Rattle.replay_files.specs.FileRun.{reported_with};
ghost use Rattle.replay_files.specs.ReplayReport.{IsReplayOf};

use crate::reading::read_files;
use name_map::HashKey;
use plain_store::PlainStore;
use stat_defs::{Config, LastFlush, List, NoMemory, Report, Reported, Verdict, WorkerEnd};
use stats_io::Shelf;
use std::alloc::Global;
use tag_rules::{Matcher, TagRules};

/// The report of events with these verdicts, a list each of files or of scripts that ended so, whose store gave this last
/// flush: it has no other flush, and no readings. It comes with the names in its log.
pub fn report_of(
    alloc: Global,
    verdicts: Vec<List<Verdict>>,
    ends: Vec<WorkerEnd>,
    given: LastFlush,
) -> Result<Reported, NoMemory>
    ensures { IfOk result (λ made. made ≡ reported_with verdicts.items ends.items given) }
{
    let LastFlush { last, log, names } = given;
    let mut flushes = Vec::new(alloc);
    flushes.push(last)?;
    let report = Report {
        verdicts: List::of(verdicts),
        flushes: List::of(flushes),
        log,
        reads: List::of(Vec::new(alloc)),
        ends: List::of(ends),
    };
    Ok(Reported { report, names })
}

/// Opens the files of a shelf one after another, reads each to its end and applies its events to one store. The report
/// has the store's one flush. A file that cannot be opened has no events. Rules and matcher are those that were built
/// from the configuration. Tables are hashed under the key, which only speed depends on.
pub fn replay_files<F: Shelf>(
    alloc: Global,
    key: HashKey,
    config: &Config,
    rules: TagRules,
    matcher: Matcher,
    names: &[String],
    shelf: &mut F,
) -> Result<Reported, NoMemory>
    requires lawful { IsConfig config.now }
    requires rules { rules ≡ config.now.tags }
    requires matcher { matcher ≡ config.now.matcher }
    requires few { length names.now ≤ limits.MAX_FILES }
    ensures report { IfOk result (λ made. IsReplayOf F.state F.S.state (F.holds shelf.old) config.now
        (map string_bytes names.now) shelf.old shelf.new made.report) }
    ensures names { IfOk result (HasNames (plan_of config.now).rules 1) }
{
    let mut store = PlainStore::with_key(alloc, key, config, rules, matcher)?;
    match read_files(alloc, shelf, names, &mut store) {
        Ok(runs) => {
            let given = store.finish(alloc)?;
            report_of(alloc, runs.verdicts, runs.ends, given)
        }
        Err(fault) => {
            drop(store);
            Err(fault)
        }
    }
}
