//! A store of one worker.
ghost use Rattle.std.specs.Prelude.{IfOk, IfSome};
ghost use Rattle.stat_defs.specs.Configs.{IsConfig};
ghost use Rattle.ledger.specs.Lists.{EachNumbered};
ghost use Rattle.recorder.specs.declared.limits.TheConstants.{MAX_GIVEN};
ghost use Rattle.recorder.specs.Tied.{IsNewWorker};
ghost use Rattle.store_opening.specs.Opening.{ArePartiesOf};
ghost use Rattle.refusal_tests.specs.Standing.{MayBeGiven};

use name_map::HashKey;
use recorder::Recorder;
use stat_defs::Config;
use std::alloc::Global;
use std::test::Fail;
use store_opening::{Opened, open_store};
use store_parts::Store;
use tag_rules::{Matcher, RegexMaker, TagRules, config_law};

/// A bootstrap without tag rules.
pub(crate) const NO_TAGS: &[u8] = br#"{"stats_config":{"use_all_default_tags":false}}"#;

/// A store of this configuration for one worker.
pub(crate) fn opened(alloc: Global, config: &Config) -> Result<Opened, Fail>
    requires { IsConfig config.now }
    ensures { IfOk result ArePartiesOf }
{
    config_law();
    let mut maker = RegexMaker::new(Vec::new(alloc));
    let rules = TagRules::build(alloc, &mut maker, config.tags.items())?;
    let matcher = Matcher::build(alloc, &mut maker, &config.matcher)?;
    Ok(open_store(alloc, HashKey::fixed(), config, rules, matcher, 1)?)
}

/// Its worker.
pub(crate) fn first_of(_store: &Store, recorders: Vec<Recorder>) -> Option<Recorder>
    requires { EachNumbered (IsNewWorker _store.now) 1 recorders.items }
    ensures { IfSome result (MayBeGiven _store.now MAX_GIVEN) }
{
    let mut waiting = recorders.into_iter();
    match waiting.next() {
        Some(recorder) => Some(recorder),
        None => None,
    }
}
