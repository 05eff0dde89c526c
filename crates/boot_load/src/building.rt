//! The patterns of a configuration, built in their order.
ghost use Rattle.std.specs.Prelude.{◌≡◌, ◌<◌, ◌^◌, All, IfOk, length, map};
ghost use Rattle.stat_defs.specs.Configs.{IsConfig};
ghost use Rattle.boot_values.specs.Paths.{indexed};
ghost use Rattle.tag_rules.specs.Admission.{IsReadable, patterns_of};
ghost use Rattle.tag_rules.specs.Tagging.{IsReadableRule};
ghost use Rattle.boot_load.specs.Asked.{paths_in, matcher_paths, of_tags, of_matcher, of_buckets, of_store, of_views};
ghost use Rattle.boot_load.specs.Asked.{asked};
ghost use Rattle.boot_load.specs.Build.{BuildsAll, HasPathIn, IsTold, boot_with};

use crate::fault::LoadFault;
use crate::loading::Boot;
use stat_defs::{BucketSpec, Config, MatchSpec, NoMemory, TagSpec, Txt};
use std::alloc::Global;
use tag_rules::{Buckets, Matcher, PatternMaker, TagFault, TagRules, config_law};

fn indexed(alloc: Global, list: &str, i: usize, part: &str) -> Result<Txt, NoMemory>
    ensures { IfOk result (λ path. path ≡ indexed list.now i part.now) }
{
    let text = format!(in alloc; "{list}[{i}]{part}")?;
    Txt::of_vec(text.into_bytes())
}

// The paths of a part of each of so many members of a list.
fn paths_in(alloc: Global, list: &str, count: usize, part: &str) -> Result<Vec<Txt>, NoMemory>
    ensures { IfOk result (λ paths. paths.items ≡ paths_in list.now count part.now) }
{
    let mut paths = Vec::new(alloc);
    for i in 0..count {
        paths.push(indexed(alloc, list, i, part)?)?;
    }
    Ok(paths)
}

fn copied(alloc: Global, paths: &[Txt]) -> Result<Vec<Txt>, NoMemory>
    ensures { IfOk result (λ copies. copies.items ≡ paths.now) }
{
    let mut copies = Vec::new(alloc);
    for path in paths {
        copies.push(Txt::of(alloc, path.bytes())?)?;
    }
    Ok(copies)
}

fn matcher_paths(alloc: Global, spec: &MatchSpec) -> Result<Vec<Txt>, NoMemory>
    ensures { IfOk result (λ paths. paths.items ≡ matcher_paths spec.now) }
{
    match spec {
        MatchSpec::AdmitAll | MatchSpec::RejectAll => Ok(Vec::new(alloc)),
        MatchSpec::Exclude(patterns) => paths_in(
            alloc,
            "stats_config.stats_matcher.exclusion_list.patterns",
            patterns.items().len(),
            ".safe_regex.regex",
        ),
        MatchSpec::Include(patterns) => paths_in(
            alloc,
            "stats_config.stats_matcher.inclusion_list.patterns",
            patterns.items().len(),
            ".safe_regex.regex",
        ),
    }
}

// The fault, with the path of the bad pattern. It takes no memory, so that a refusal is always told.
fn told(paths: Vec<Txt>, fault: TagFault) -> LoadFault
    requires { HasPathIn paths.items fault }
    ensures { IsTold paths.items fault result }
{
    match fault {
        TagFault::BadPattern(i) => match paths.into_iter().nth(i as usize) {
            Some(path) => LoadFault::BadPattern(path),
            None => unreachable!(),
        },
        TagFault::NoMemory => LoadFault::NoMemory,
    }
}

fn rules_of<K: PatternMaker>(
    alloc: Global,
    maker: &mut K,
    paths: &[Txt],
    specs: &[TagSpec],
) -> Result<TagRules, LoadFault>
    requires paths { length paths.now ≡ length specs.now }
    requires readable { All IsReadableRule specs.now }
    requires few { length specs.now < 2 ^ 32 }
    ensures { BuildsAll (of_tags paths.now specs.now) specs.now (K.memory maker.old) (K.memory maker.new) result }
{
    let paths = copied(alloc, paths)?;
    match TagRules::build(alloc, maker, specs) {
        Ok(rules) => Ok(rules),
        Err(fault) => Err(told(paths, fault)),
    }
}

fn matcher_of<K: PatternMaker>(
    alloc: Global,
    maker: &mut K,
    spec: &MatchSpec,
) -> Result<Matcher, LoadFault>
    requires readable { All IsReadable (patterns_of spec.now) }
    requires few { length (patterns_of spec.now) < 2 ^ 32 }
    ensures { BuildsAll (of_matcher spec.now) spec.now (K.memory maker.old) (K.memory maker.new) result }
{
    let paths = matcher_paths(alloc, spec)?;
    match Matcher::build(alloc, maker, spec) {
        Ok(matcher) => Ok(matcher),
        Err(fault) => Err(told(paths, fault)),
    }
}

fn buckets_of<K: PatternMaker>(
    alloc: Global,
    maker: &mut K,
    specs: &[BucketSpec],
) -> Result<Buckets, LoadFault>
    requires readable { All (λ spec. IsReadable spec.pattern) specs.now }
    requires few { length specs.now < 2 ^ 32 }
    ensures { BuildsAll (of_buckets specs.now) specs.now (K.memory maker.old) (K.memory maker.new) result }
{
    let paths = paths_in(
        alloc,
        "stats_config.histogram_bucket_settings",
        specs.len(),
        ".match.safe_regex.regex",
    )?;
    match Buckets::build(alloc, maker, specs) {
        Ok(buckets) => Ok(buckets),
        Err(fault) => Err(told(paths, fault)),
    }
}

// The rules and the matcher that a store keeps for good.
fn build_store<K: PatternMaker>(
    alloc: Global,
    config: &Config,
    maker: &mut K,
) -> Result<(TagRules, Matcher), LoadFault>
    requires { IsConfig config.now }
    ensures { BuildsAll (of_store config.now) (config.now.tags, config.now.matcher) (K.memory maker.old)
        (K.memory maker.new) result }
{
    config_law();
    let rules = rules_of(alloc, maker, config.tag_paths.items(), config.tags.items())?;
    let matcher = matcher_of(alloc, maker, &config.matcher)?;
    Ok((rules, matcher))
}

// The buckets, and the rules that the views of flushes use.
fn build_views<K: PatternMaker>(
    alloc: Global,
    config: &Config,
    maker: &mut K,
) -> Result<(Buckets, TagRules), LoadFault>
    requires { IsConfig config.now }
    ensures { BuildsAll (of_views config.now) (config.now.buckets, config.now.tags) (K.memory maker.old)
        (K.memory maker.new) result }
{
    config_law();
    let buckets = buckets_of(alloc, maker, config.buckets.items())?;
    let rules = rules_of(alloc, maker, config.tag_paths.items(), config.tags.items())?;
    Ok((buckets, rules))
}

/// The configuration with its patterns.
pub(crate) fn build<K: PatternMaker>(
    alloc: Global,
    config: Config,
    maker: &mut K,
) -> Result<Boot, LoadFault>
    requires { IsConfig config }
    ensures { BuildsAll (asked config) (boot_with config) (K.memory maker.old) (K.memory maker.new) result }
{
    let (rules, matcher) = build_store(alloc, &config, maker)?;
    let (buckets, view_rules) = build_views(alloc, &config, maker)?;
    Ok(Boot {
        config,
        rules,
        matcher,
        buckets,
        view_rules,
    })
}
