//! How the store is run.
ghost use Rattle.std.specs.Prelude.{◌≡◌, ◌≢◌, ◌<◌, ◌≤◌, ◌^◌, codes, Option, Some, None, Ok, Err, MatchResult, IfOk};
ghost use Rattle.std.specs.Prelude.{option_map};
ghost use Rattle.serde_json.specs.View.{view};
ghost use Rattle.stat_defs.specs.Configs.{AreScopes};
ghost use Rattle.boot_values.specs.Agrees.{Agrees};
ghost use Rattle.boot_file.specs.Lawful.{IsLawfulRun};
ghost use Rattle.boot_file.specs.Scopes.{run_of};

use crate::scopes::scopes_of;
use boot_values::{BootFault, Limits, member, section_at, whole_at};
use serde_json::Value;
use stat_defs::{List, MAX_FLUSH_EVERY, MAX_FLUSHES, ScopeSpec};
use std::alloc::Global;

/// The settings of `stats_run`.
#[derive(Drop)]
pub(crate) struct Run {
    pub scopes: List<ScopeSpec>,
    pub flushes: u32,
    pub reads: u32,
    pub flush_every: u32,
}

const TO_64: Limits = Limits {
    least: 0,
    most: MAX_FLUSHES,
    absent: 0,
};

const PACE: Limits = Limits {
    least: 1,
    most: MAX_FLUSH_EVERY,
    absent: 1000,
};

/// The settings of `stats_run`.
#[tactic(auto, unfolding(crate::specs::Scopes::run_of))]
pub(crate) fn run_of(alloc: Global, found: Option<&Value>) -> Result<Run, BootFault>
    ensures gives { Agrees result (run_of (option_map (λ v. view v.now) found.entry)) }
    ensures lawful { IfOk result (λ r. IsLawfulRun r) }
{
    let section = section_at(alloc, "stats_run", found)?;
    let scopes = scopes_of(alloc, member(section, "scopes"))?;
    let flushes = whole_at(
        alloc,
        "stats_run.flushes",
        &TO_64,
        member(section, "flushes"),
    )?;
    let reads = whole_at(alloc, "stats_run.reads", &TO_64, member(section, "reads"))?;
    let flush_every = member(section, "flush_every");
    let flush_every = whole_at(alloc, "stats_run.flush_every", &PACE, flush_every)?;
    Ok(Run {
        scopes,
        flushes,
        reads,
        flush_every,
    })
}
