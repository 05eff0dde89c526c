//! A new store of the usual configuration.
ghost use Rattle.std.specs.Prelude.{◌≤◌, IfOk};
ghost use Rattle.stat_defs.specs.Configs.{IsConfig};
ghost use Rattle.store_bench.specs.Held.{IsOpened};

use boot_file::usual;
use name_map::HashKey;
use stat_defs::{Config, NoMemory};
use std::alloc::Global;
use store_opening::{Opened, open_store};
use tag_rules::{Matcher, RegexMaker, TagRules, config_law};

fn open_with(alloc: Global, config: &Config, workers: u32) -> Result<Opened, NoMemory>
    requires config { IsConfig config.now }
    requires workers { (1 ≤ workers) × (workers ≤ 32) }
    ensures { IfOk result IsOpened }
{
    config_law();
    let mut maker = RegexMaker::new(Vec::new(alloc));
    let Ok(rules) = TagRules::build(alloc, &mut maker, config.tags.items()) else {
        return Err(NoMemory);
    };
    let Ok(matcher) = Matcher::build(alloc, &mut maker, &config.matcher) else {
        drop(rules);
        return Err(NoMemory);
    };
    open_store(alloc, HashKey::fixed(), config, rules, matcher, workers)
}

/// A store for so many workers.
pub(crate) fn open(alloc: Global, workers: u32) -> Result<Opened, NoMemory>
    requires { (1 ≤ workers) × (workers ≤ 32) }
    ensures { IfOk result IsOpened }
{
    let config = usual(alloc)?;
    let opened = open_with(alloc, &config, workers);
    drop(config);
    opened
}
