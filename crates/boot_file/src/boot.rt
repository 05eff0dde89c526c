//! The bootstrap as a whole.
ghost use Rattle.std.specs.Prelude.{◌≡◌, ◌≢◌, ◌<◌, ◌≤◌, ◌+◌, ◌^◌, codes, length, map, All, Option, Some, None, Ok, Err};
ghost use Rattle.std.specs.Prelude.{MatchResult, IfOk, IfErr, option_map};
ghost use Rattle.std.specs.List.{AllZip};
ghost use Rattle.serde_json.specs.View.{view};
ghost use Rattle.stat_defs.specs.Configs.{IsConfig, IsTagSpec, HasPath};
ghost use Rattle.boot_values.specs.Agrees.{Agrees};
ghost use Rattle.boot_file.specs.Lawful.{IsPlacedTag};
ghost use Rattle.boot_file.specs.Boot.{boot, boot_of, top_of};

use crate::default_tags::PlacedTag;
use crate::run::run_of;
use crate::sinks::prefix_of;
use crate::tags::tags_of;
use boot_values::{BootFault, bad_key, json_of, matcher_of, member, section_at, settings_of};
use serde_json::Value;
use stat_defs::{Config, List, NoMemory, TagSpec, Txt};
use std::alloc::Global;

/// Tag rules, and the paths of their patterns.
#[derive(Drop)]
struct Parted {
    specs: Vec<TagSpec>,
    paths: Vec<Txt>,
}

fn part(alloc: Global, tags: Vec<PlacedTag>) -> Result<Parted, NoMemory>
    ensures specs { IfOk result (λ p. p.specs.items ≡ map (λ t. t.spec) tags.items) }
    ensures paths { IfOk result (λ p. p.paths.items ≡ map (λ t. t.path) tags.items) }
{
    let mut specs = Vec::new(alloc);
    let mut paths = Vec::new(alloc);
    for tag in tags {
        let PlacedTag { spec, path } = tag;
        specs.push(spec)?;
        paths.push(path)?;
    }
    Ok(Parted { specs, paths })
}

fn boot_of(alloc: Global, top: &Value) -> Result<Config, BootFault>
    ensures gives { Agrees result (boot_of (view top.now)) }
    ensures lawful { IfOk result (λ c. IsConfig c) }
{
    let stats = section_at(alloc, "stats_config", member(Some(top), "stats_config"))?;
    let tags = tags_of(alloc, stats)?;
    let matcher = matcher_of(alloc, member(stats, "stats_matcher"))?;
    let buckets = settings_of(alloc, member(stats, "histogram_bucket_settings"))?;
    let statsd_prefix = prefix_of(alloc, member(Some(top), "stats_sinks"))?;
    let run = run_of(alloc, member(Some(top), "stats_run"))?;
    let parted = part(alloc, tags)?;
    Ok(Config {
        tags: List::of(parted.specs),
        tag_paths: List::of(parted.paths),
        matcher,
        buckets,
        statsd_prefix,
        scopes: run.scopes,
        flushes: run.flushes,
        flush_every: run.flush_every,
        reads: run.reads,
    })
}

/// Reads the bytes of a bootstrap, a JSON text in UTF-8: the configuration, or the first fault. What concerns
/// statistics stands in `stats_config`, `stats_sinks` and `stats_run`; a null counts as absent, and other keys are
/// passed over. No pattern is built here. How many bytes are too many is for the caller to say: time and memory are
/// linear in them.
pub fn read(alloc: Global, bytes: &[u8]) -> Result<Config, BootFault>
    ensures gives { Agrees result (boot bytes.now) }
    ensures lawful { IfOk result (λ c. IsConfig c) }
{
    let top = json_of(alloc, bytes)?;
    if !top.is_object() {
        return Err(bad_key(alloc, "top"));
    }
    boot_of(alloc, &top)
}

/// The usual configuration, which is that of the bootstrap `{}`.
#[tactic(auto, using(crate::proofs::Empty::usual_boots))]
pub fn usual(alloc: Global) -> Result<Config, NoMemory>
    ensures gives { IfOk result (λ c. boot (codes "{}") ≡ Ok c) }
    ensures lawful { IfOk result (λ c. IsConfig c) }
{
    match read(alloc, b"{}") {
        Ok(config) => Ok(config),
        Err(BootFault::NoMemory) => Err(NoMemory),
        Err(_) => unreachable!(),
    }
}
