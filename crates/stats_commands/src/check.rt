//! `check BOOT`.
ghost use Rattle.std.specs.Prelude.{◌≡◌, None, IfOk, length, string_bytes};
ghost use Rattle.tag_rules.specs.Admission.{patterns_of};
ghost use Rattle.stats_commands.specs.LoadedLine.{totals_line, loaded_line};
ghost use Rattle.stats_commands.specs.World.{world, sight};
ghost use Rattle.stats_commands.specs.Outcome.{Prints, Checks};

use crate::outcome::{Outcome, give_up, print, refuse_boot};
use boot_load::{LoadFault, load};
use stat_defs::{Config, MatchSpec, NoMemory};
use stats_io::{Shelf, Sink};
use std::alloc::Global;
use tag_rules::PatternMaker;

// How many patterns the matcher has.
fn pattern_count(spec: &MatchSpec) -> usize
    ensures { result ≡ length (patterns_of spec.now) }
{
    match spec {
        MatchSpec::AdmitAll | MatchSpec::RejectAll => 0,
        MatchSpec::Exclude(patterns) => patterns.items().len(),
        MatchSpec::Include(patterns) => patterns.items().len(),
    }
}

// The line with these numbers.
fn totals_line(
    alloc: Global,
    tags: usize,
    patterns: usize,
    buckets: usize,
    scopes: usize,
) -> Result<String, NoMemory>
    ensures { IfOk result (λ text. string_bytes text ≡ totals_line tags patterns buckets scopes) }
{
    Ok(format!(in alloc;
        "ok: {tags} tag rules, {patterns} patterns, {buckets} bucket settings, {scopes} scopes\n"
    )?)
}

// The line on a bootstrap that says this.
fn loaded_line(alloc: Global, config: &Config) -> Result<String, NoMemory>
    ensures { IfOk result (λ text. string_bytes text ≡ loaded_line config.now) }
{
    totals_line(
        alloc,
        config.tags.items().len(),
        pattern_count(&config.matcher),
        config.buckets.items().len(),
        config.scopes.items().len(),
    )
}

// Writes the line on a bootstrap that was loaded.
fn tell<O: Sink, E: Sink>(alloc: Global, config: &Config, out: &mut O, err: &mut E) -> Outcome
    ensures report { result.report ≡ None }
    ensures boot_faults { result.boot_faults ≡ 0 }
    ensures printed { Prints O.state out.old out.new (E.state err.old) (E.state err.new)
        (loaded_line config.now) result.status }
{
    match loaded_line(alloc, config) {
        Ok(line) => Outcome {
            status: print(line.as_bytes(), out, err),
            report: None,
            boot_faults: 0,
        },
        Err(NoMemory) => give_up(err),
    }
}

/// Loads a bootstrap with all its patterns, and writes a line on it.
pub fn check<K: PatternMaker, F: Shelf, O: Sink, E: Sink>(
    alloc: Global,
    boot: &str,
    maker: &mut K,
    shelf: &mut F,
    out: &mut O,
    err: &mut E,
) -> Outcome
    ensures report { result.report ≡ None }
    ensures checked { Checks (sight K.memory F.holds F.state F.S.state O.state E.state)
        (world maker.old shelf.old out.old err.old) (world maker.new shelf.new out.new err.new)
        boot.now result.status result.boot_faults }
{
    match load(alloc, boot, maker, shelf) {
        Ok(loaded) => tell(alloc, &loaded.config, out, err),
        Err(LoadFault::NoMemory) => give_up(err),
        Err(fault) => refuse_boot(alloc, &fault, err),
    }
}
