//! Laws, each the contract of a function that does nothing.
ghost use Rattle.stats_commands.specs.World.{sight};
ghost use Rattle.envoy_stats.specs.Running.{ProgramKeepsTable, ProgramFailsByCause, LoadsAlike};

use load_run::same_summary;
use stats_io::{Shelf, Sink};
use tag_rules::PatternMaker;

/// A law: each call of the program keeps the table of statuses (`KeepsTable`), which says in a line each what statuses 0
/// to 6 mean, and that there is no other one.
pub fn program_keeps_the_table<K: PatternMaker, F: Shelf, O: Sink, E: Sink>()
    ensures { ProgramKeepsTable (sight K.memory F.holds F.state F.S.state O.state E.state) }
{}

/// A law: a call of the program in which nothing went wrong (`IsFlawless`) has status 0, or 6 where memory was wanting.
pub fn program_fails_by_cause<K: PatternMaker, F: Shelf, O: Sink, E: Sink>()
    ensures { ProgramFailsByCause (sight K.memory F.holds F.state F.S.state O.state E.state) }
{}

/// A law: `load --run W E` writes what `load W E` writes, byte for byte, whatever order the threads took.
pub fn loads_alike<K: PatternMaker, F: Shelf, O: Sink, E: Sink>()
    ensures { LoadsAlike (sight K.memory F.holds F.state F.S.state O.state E.state) }
{
    same_summary();
}
