//! Laws, each the contract of a function that does nothing.
ghost use Rattle.stats_commands.specs.World.{sight};
ghost use Rattle.stats_commands.specs.Statuses.{CallsKeepTable};
ghost use Rattle.stats_commands.specs.Flawless.{CallsFailByCause};

use stats_io::{Shelf, Sink};
use tag_rules::PatternMaker;

/// A law: a call that starts no thread keeps the table of statuses (`KeepsTable`), which says in a line each what
/// statuses 0 to 6 mean, and that there is no other one.
pub fn calls_keep_the_table<K: PatternMaker, F: Shelf, O: Sink, E: Sink>()
    ensures { CallsKeepTable (sight K.memory F.holds F.state F.S.state O.state E.state) }
{}

/// A law: a call that starts no thread and in which nothing went wrong (`IsFlawless`) has status 0, or 6 where memory was
/// wanting.
pub fn calls_fail_by_cause<K: PatternMaker, F: Shelf, O: Sink, E: Sink>()
    ensures { CallsFailByCause (sight K.memory F.holds F.state F.S.state O.state E.state) }
{}
