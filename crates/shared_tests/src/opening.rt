//! How a store is opened for a script.
ghost use Rattle.std.specs.Prelude.{◌+◌, ◌≤◌, IsSome, IfSome};
ghost use Rattle.std.specs.Vec.Iter.{into_iter_items};
ghost use Rattle.stat_defs.specs.Configs.{IsConfig};
ghost use Rattle.ledger.specs.Lists.{EachNumbered};
ghost use Rattle.recorder.specs.Tied.{IsNewWorker};
ghost use Rattle.store_opening.specs.Opening.{ArePartiesOf};
ghost use Rattle.shared_tests.specs.Parties.{IsPartyOf, AreParties};

use crate::parties::{Parties, Rounds, Worker};
use boot_file::read;
use name_map::HashKey;
use recorder::Recorder;
use stat_defs::Config;
use std::alloc::Global;
use std::process::Abort;
use std::vec::IntoIter;
use store_opening::{Opened, open_store};
use store_parts::Store;
use tag_rules::{Matcher, RegexMaker, TagRules, config_law};

fn opened_with<R: Abort>(rt: &R, alloc: Global, config: &Config, workers: u32) -> Opened
    requires config { IsConfig config.now }
    requires workers { (1 ≤ workers) × (workers ≤ 2) }
    ensures { ArePartiesOf result }
{
    config_law();
    let mut maker = RegexMaker::new(Vec::new(alloc));
    let rules = TagRules::build(alloc, &mut maker, config.tags.items()).expect(rt, "tag rules");
    let matcher = Matcher::build(alloc, &mut maker, &config.matcher).expect(rt, "a matcher");
    open_store(alloc, HashKey::fixed(), config, rules, matcher, workers).expect(rt, "a store")
}

// The next worker, where there is one more, which was given no event yet.
fn next_worker(_store: &Store, recorders: &mut IntoIter<Recorder>, number: u32) -> Option<Worker>
    requires { EachNumbered (IsNewWorker _store.now) number (into_iter_items recorders.old) }
    ensures worker { IfSome result (IsPartyOf _store.now number) }
    ensures rest { IsSome result
        → EachNumbered (IsNewWorker _store.now) (number + 1) (into_iter_items recorders.new) }
{
    match recorders.next() {
        Some(recorder) => Some(Worker::AtWork(recorder, 0)),
        None => None,
    }
}

fn parties_of<R: Abort>(rt: &R, opened: Opened) -> Parties
    requires { ArePartiesOf opened }
    ensures { AreParties result }
{
    let Opened {
        store,
        recorders,
        flusher,
        admin,
    } = opened;
    let mut waiting = recorders.into_iter();
    let first = next_worker(&store, &mut waiting, 1).expect(rt, "a worker");
    let second = next_worker(&store, &mut waiting, 2);
    Parties {
        store,
        first,
        second,
        rounds: Rounds::Between(flusher),
        admin,
    }
}

/// A store of one worker or two under the configuration of a bootstrap.
pub(crate) fn open<R: Abort>(rt: &R, alloc: Global, bootstrap: &str, workers: u32) -> Parties
    requires { (1 ≤ workers) × (workers ≤ 2) }
    ensures { AreParties result }
{
    let config = read(alloc, bootstrap.as_bytes()).expect(rt, "a bootstrap");
    let opened = opened_with(rt, alloc, &config, workers);
    drop(config);
    parties_of(rt, opened)
}
