//! A bootstrap, loaded.
ghost use Rattle.std.specs.Prelude.{◌≡◌, ◌≢◌, ◌≤◌, ◌⊎◌, ℕ, List, IfOk, MatchResult, codes};
ghost use Rattle.stat_defs.specs.Configs.{IsConfig};
ghost use Rattle.boot_load.specs.Load.{IsConfigured, IsUnread, Loads};

use crate::building::build;
use crate::fault::LoadFault;
use crate::reading::bytes_of;
use boot_file::{BootFault, read, usual};
use stat_defs::Config;
use stats_io::Shelf;
use std::alloc::Global;
use tag_rules::{Buckets, Matcher, PatternMaker, TagRules};

/// What a bootstrap says of statistics, with its patterns built. The tag rules stand there twice: a store of statistics
/// takes `rules` and `matcher` for good, and `view_rules` are those of the views of its flushes.
#[derive(Drop)]
pub struct Boot {
    pub config: Config,
    pub rules: TagRules,
    pub matcher: Matcher,
    pub buckets: Buckets,
    pub view_rules: TagRules,
}

/// Reads the bootstrap of that name, `-` for the usual one, and builds its patterns: those of the tag rules, of the
/// matcher, of the bucket settings, and of the tag rules once more, in this order.
pub fn load<K: PatternMaker, F: Shelf>(
    alloc: Global,
    name: &str,
    maker: &mut K,
    shelf: &mut F,
) -> Result<Boot, LoadFault>
    ensures loads { Loads F.S.state (F.holds shelf.old name.now) name.now (F.state shelf.old) (F.state shelf.new)
        (K.memory maker.old) (K.memory maker.new) result }
    ensures lawful { IfOk result (λ loaded. IsConfig loaded.config) }
    ensures usual { name.now ≡ codes "-" → shelf.new ≡ shelf.old }
    ensures contents { (other : List ℕ) → F.holds shelf.new other ≡ F.holds shelf.old other }
    ensures later { (F.state shelf.old).faults ≤ (F.state shelf.new).faults }
{
    let config = config_of(alloc, name, shelf)?;
    build(alloc, config, maker)
}

// The configuration that the bootstrap of that name says.
fn config_of<F: Shelf>(alloc: Global, name: &str, shelf: &mut F) -> Result<Config, LoadFault>
    ensures read { MatchResult result
        (λ config. IsConfigured F.S.state (F.holds shelf.old name.now) name.now config
        × (F.state shelf.new ≡ F.state shelf.old))
        (λ fault. IsUnread F.S.state (F.holds shelf.old name.now) name.now (F.state shelf.old)
        (F.state shelf.new) fault) }
    ensures lawful { IfOk result (λ config. IsConfig config) }
    ensures usual { name.now ≡ codes "-" → shelf.new ≡ shelf.old }
    ensures contents { (other : List ℕ) → F.holds shelf.new other ≡ F.holds shelf.old other }
    ensures later { (F.state shelf.old).faults ≤ (F.state shelf.new).faults }
{
    if name == "-" {
        return Ok(usual(alloc)?);
    }
    let bytes = bytes_of(alloc, name, shelf)?;
    match read(alloc, &bytes) {
        Ok(config) => Ok(config),
        Err(fault) => Err(unread(fault)),
    }
}

// Why a bootstrap that said no configuration was not loaded.
fn unread(fault: BootFault) -> LoadFault
    ensures { ((fault ≡ BootFault.NoMemory) × (result ≡ LoadFault.NoMemory))
        ⊎ ((fault ≢ BootFault.NoMemory) × (result ≡ LoadFault.Faulty fault)) }
{
    if fault == BootFault::NoMemory {
        return LoadFault::NoMemory;
    }
    LoadFault::Faulty(fault)
}
