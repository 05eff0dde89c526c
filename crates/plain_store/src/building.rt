//! How a store is made of a configuration alone, and the report that it ends in.
ghost use Rattle.std.specs.Prelude.{◌≡◌, IfOk, IfErr};
ghost use Rattle.stat_defs.specs.Configs.{IsConfig};
ghost use Rattle.tag_rules.specs.Unbuilt.{HasNoStore};
ghost use Rattle.plain_store.specs.Store.{new_store, IsReportOfStore};

use crate::store::PlainStore;
use name_map::HashKey;
use stat_defs::{Config, FlushRecord, LastFlush, List, NoMemory, Report};
use std::alloc::Global;
use tag_rules::{TagFault, rules_and_matcher};

impl PlainStore {
    /// A store without events, whose rules and matcher are built from the configuration. A pattern that is refused is
    /// told by its place among those of the tag rules or of the matcher. Its tables are hashed under the fixed key.
    pub fn build(alloc: Global, config: &Config) -> Result<PlainStore, TagFault>
        requires { IsConfig config.now }
        ensures made { IfOk result (λ store. store ≡ new_store config.now) }
        ensures refused { IfErr result (λ fault. HasNoStore config.now fault) }
    {
        PlainStore::build_with_key(alloc, HashKey::fixed(), config)
    }

    /// The same, its tables hashed under this key.
    pub fn build_with_key(
        alloc: Global,
        key: HashKey,
        config: &Config,
    ) -> Result<PlainStore, TagFault>
        requires { IsConfig config.now }
        ensures made { IfOk result (λ store. store ≡ new_store config.now) }
        ensures refused { IfErr result (λ fault. HasNoStore config.now fault) }
    {
        let (rules, matcher) = rules_and_matcher(alloc, config)?;
        Ok(PlainStore::with_key(alloc, key, config, rules, matcher)?)
    }

    /// Finishes the store, and gives the report of its flushes, the earlier ones and the last. Verdicts, readings and
    /// ends of files are left out of it, since no view asks for them.
    pub fn finish_report(self, alloc: Global, flushes: Vec<FlushRecord>) -> Result<Report, NoMemory>
        requires { flushes.items ≡ self.flushes }
        ensures { IfOk result (λ report. IsReportOfStore self report) }
    {
        let LastFlush {
            last,
            log,
            names: _,
        } = self.finish(alloc)?;
        let mut flushes = flushes;
        flushes.push(last)?;
        Ok(Report {
            verdicts: List::of(Vec::new(alloc)),
            flushes: List::of(flushes),
            log,
            reads: List::of(Vec::new(alloc)),
            ends: List::of(Vec::new(alloc)),
        })
    }
}
