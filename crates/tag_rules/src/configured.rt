//! What is built of a configuration's patterns, each of which is told by its place where it is refused.
ghost use Rattle.std.specs.Prelude.{◌≡◌, IfOk, IfErr};
ghost use Rattle.stat_defs.specs.Configs.{IsConfig};
ghost use Rattle.tag_rules.specs.Unbuilt.{HasNoRules, HasNoBuckets, HasNoStore, HasNoViews};

use crate::buckets::Buckets;
use crate::fault::TagFault;
use crate::laws::config_law;
use crate::matcher::Matcher;
use crate::regex_maker::RegexMaker;
use crate::tag_rules::TagRules;
use stat_defs::Config;
use std::alloc::Global;

/// The tag rules of a configuration.
pub fn rules_of(alloc: Global, config: &Config) -> Result<TagRules, TagFault>
    requires { IsConfig config.now }
    ensures built { IfOk result (λ rules. rules ≡ config.now.tags) }
    ensures refused { IfErr result (λ fault. HasNoRules config.now fault) }
{
    config_law();
    let mut maker = RegexMaker::new(Vec::new(alloc));
    TagRules::build(alloc, &mut maker, config.tags.items())
}

/// The bucket settings of a configuration.
pub fn buckets_of(alloc: Global, config: &Config) -> Result<Buckets, TagFault>
    requires { IsConfig config.now }
    ensures built { IfOk result (λ buckets. buckets ≡ config.now.buckets) }
    ensures refused { IfErr result (λ fault. HasNoBuckets config.now fault) }
{
    config_law();
    let mut maker = RegexMaker::new(Vec::new(alloc));
    Buckets::build(alloc, &mut maker, config.buckets.items())
}

/// The tag rules and the matcher of a configuration, which a store needs.
pub fn rules_and_matcher(alloc: Global, config: &Config) -> Result<(TagRules, Matcher), TagFault>
    requires { IsConfig config.now }
    ensures rules { IfOk result (λ built. built.0 ≡ config.now.tags) }
    ensures matcher { IfOk result (λ built. built.1 ≡ config.now.matcher) }
    ensures refused { IfErr result (λ fault. HasNoStore config.now fault) }
{
    config_law();
    let mut maker = RegexMaker::new(Vec::new(alloc));
    let rules = TagRules::build(alloc, &mut maker, config.tags.items())?;
    let matcher = Matcher::build(alloc, &mut maker, &config.matcher)?;
    Ok((rules, matcher))
}

/// The tag rules and the bucket settings of a configuration, which views need.
pub fn rules_and_buckets(alloc: Global, config: &Config) -> Result<(TagRules, Buckets), TagFault>
    requires { IsConfig config.now }
    ensures rules { IfOk result (λ built. built.0 ≡ config.now.tags) }
    ensures buckets { IfOk result (λ built. built.1 ≡ config.now.buckets) }
    ensures refused { IfErr result (λ fault. HasNoViews config.now fault) }
{
    config_law();
    let mut maker = RegexMaker::new(Vec::new(alloc));
    let rules = TagRules::build(alloc, &mut maker, config.tags.items())?;
    let buckets = Buckets::build(alloc, &mut maker, config.buckets.items())?;
    Ok((rules, buckets))
}
