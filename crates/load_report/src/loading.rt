//! The report of a load.
ghost use Rattle.std.specs.Prelude.{◌≡◌, ◌≤◌, IfOk};
ghost use Rattle.stat_defs.specs.Configs.{IsConfig};
ghost use Rattle.ledger.specs.Ledger.{HasNames, plan_of};
ghost use Rattle.load_scripts.specs.declared.limits.TheConstants.{MAX_SCRIPTS, MAX_SCRIPT_EVENTS};
ghost use Rattle.load_report.specs.LoadReport.{IsLoadOf};
ghost use Rattle.load_report.specs.LoadRun.{script_ends};

use crate::applying::{apply_scripts, script_ends};
use name_map::HashKey;
use plain_store::PlainStore;
use replay_files::report_of;
use stat_defs::{Config, NoMemory, Reported};
use std::alloc::Global;
use tag_rules::{Matcher, TagRules};

/// Applies the events of so many scripts of so many events each, one script after another, to one store. The report is
/// that of a replay of the scripts' texts: it has the store's one flush, and comes with the names in its log. Rules and matcher are those that were built
/// from the configuration. Tables are hashed under the key, which only speed depends on.
pub fn load_report(
    alloc: Global,
    key: HashKey,
    config: &Config,
    rules: TagRules,
    matcher: Matcher,
    scripts: u32,
    events: u32,
) -> Result<Reported, NoMemory>
    requires lawful { IsConfig config.now }
    requires rules { rules ≡ config.now.tags }
    requires matcher { matcher ≡ config.now.matcher }
    requires scripts { scripts ≤ MAX_SCRIPTS }
    requires events { events ≤ MAX_SCRIPT_EVENTS }
    ensures ledger { IfOk result (λ made. IsLoadOf config.now scripts events made.report) }
    ensures ends { IfOk result (λ made. made.report.ends ≡ script_ends scripts) }
    ensures names { IfOk result (HasNames (plan_of config.now).rules 1) }
{
    let mut store = PlainStore::with_key(alloc, key, config, rules, matcher)?;
    match apply_scripts(alloc, &mut store, scripts, events) {
        Ok(verdicts) => {
            let given = store.finish(alloc)?;
            let ends = script_ends(alloc, scripts)?;
            report_of(alloc, verdicts, ends, given)
        }
        Err(fault) => {
            drop(store);
            Err(fault)
        }
    }
}
