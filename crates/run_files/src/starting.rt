//! The start of a run.
ghost use Rattle.std.specs.Prelude.{◌≡◌, ◌≤◌, IfOk, length};
ghost use Rattle.stat_defs.specs.Configs.{IsConfig};
ghost use Rattle.book_state.specs.declared.limits.TheConstants.{MAX_WORKERS};
ghost use Rattle.run_files.specs.Starting.{IsStarted};

use crate::jobs::jobs_of;
use crate::side_by_side::Sides;
use name_map::HashKey;
use stat_defs::{Config, NoMemory};
use std::alloc::Global;
use store_opening::{Opened, open_store};
use store_parts::Store;
use tag_rules::{Matcher, TagRules};
use worker_run::{Given, Job};

/// What a run is set up with: the key of its tables of names, its configuration, and the rules and the matcher that
/// were built from it.
#[derive(Drop)]
pub struct Setup<'a> {
    pub key: HashKey,
    pub config: &'a Config,
    pub rules: TagRules,
    pub matcher: Matcher,
}

/// A new store, its flusher and its reader, and a job for each worker.
#[derive(Drop)]
pub(crate) struct Started<S> {
    pub(crate) store: Store,
    pub(crate) sides: Sides,
    pub(crate) jobs: Vec<Job<S>>,
}

/// Opens a store with a worker for each file.
pub(crate) fn start<S: Drop>(
    alloc: Global,
    setup: Setup<'_>,
    files: Vec<Given<S>>,
) -> Result<Started<S>, NoMemory>
    requires config { IsConfig setup.config.now }
    requires built { (setup.rules ≡ setup.config.now.tags) × (setup.matcher ≡ setup.config.now.matcher) }
    requires files { (1 ≤ length files.items) × (length files.items ≤ MAX_WORKERS) }
    ensures { IfOk result (IsStarted setup.entry.config.now files.items) }
{
    let Setup {
        key,
        config,
        rules,
        matcher,
    } = setup;
    let opened = open_store(alloc, key, config, rules, matcher, files.len() as u32)?;
    let Opened {
        store,
        recorders,
        flusher,
        admin,
    } = opened;
    let Ok(jobs) = jobs_of(alloc, recorders, files) else {
        drop(store);
        drop(flusher);
        drop(admin);
        return Err(NoMemory);
    };
    let sides = Sides {
        flusher,
        flushes: config.flushes,
        admin,
        reads: config.reads,
    };
    Ok(Started { store, sides, jobs })
}
