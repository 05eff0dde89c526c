//! The names that a reader knows.
ghost use Rattle.std.specs.Prelude.{◌≡◌, OnOk, OnErr, []};
ghost use Rattle.stat_defs.specs.declared.ids.Kind.TheVariants.{Counter, Gauge};
ghost use Rattle.stat_defs.specs.Changes.{at_of, names_after, GoesOnLater};
ghost use Rattle.name_changes.specs.Changes.{newest_from, newest};
ghost use Rattle.name_list.specs.Ids.{ids_of};
ghost use Rattle.locked_book.specs.Lists.{AreMetrics};
ghost use Rattle.locked_book.specs.Sharing.{IsSeatOf, part_of, names_by};
ghost use Rattle.admin_side.specs.Looking.{BringsUp, Looks};

use locked_book::{LockedBook, SharedBook};
use name_list::NameList;
use stat_defs::{MetricId, NameOp, NoMemory};
use std::alloc::Global;
use std::marker::Model;

/// The counters and the gauges that are not gone by the changes that a reader knows. Contracts see these changes.
#[derive(Drop)]
pub struct KnownNames {
    list: NameList,
    // How many changes there are, and the `at` of the last one, or 0.
    count: u32,
    at: u64,
}

impl Model for KnownNames {
    ghost use Rattle.std.specs.Prelude.{List};
    ghost use Rattle.stat_defs.specs.declared.history.NameOp.{NameOp};

    ghost Value = { List NameOp };

    ghost use Rattle.admin_side.specs.NamesKept.{changes, AreCounted};

    ghost view = { changes };

    ghost invariant = { AreCounted };
}

fn at_of(change: NameOp) -> u64
    ensures { result ≡ at_of change }
{
    match change {
        NameOp::Made { at, id: _, kind: _ } => at,
        NameOp::Gone { at, id: _ } => at,
    }
}

// The `at` of the last of these changes, or this one where there is none.
fn newest_of(at: u64, changes: &[NameOp]) -> u64
    ensures { result ≡ newest_from at changes.now }
{
    match changes.last() {
        Some(change) => at_of(*change),
        None => at,
    }
}

impl KnownNames {
    /// No change is known.
    pub fn new(alloc: Global) -> KnownNames
        ensures { result ≡ [] }
    {
        KnownNames {
            list: NameList::new(alloc),
            count: 0,
            at: 0,
        }
    }

    /// How many entries the log had when the last change was made, or 0.
    pub fn at(&self) -> u64
        ensures { result ≡ newest self.now }
    {
        self.at
    }

    /// The counters that are not gone.
    pub fn counters(&self) -> &[MetricId]
        ensures ids { result.now ≡ ids_of Counter (names_after self.now) }
        ensures metrics { AreMetrics result.now }
    {
        self.list.counters()
    }

    /// The gauges that are not gone.
    pub fn gauges(&self) -> &[MetricId]
        ensures ids { result.now ≡ ids_of Gauge (names_after self.now) }
        ensures metrics { AreMetrics result.now }
    {
        self.list.gauges()
    }

    /// Brings them up to all published changes of the book's names: one load of their number, and one of each word of
    /// those that are new. It takes time in the names and in the new changes. Where there is no memory, they stay as
    /// they were.
    pub fn bring_up(
        &mut self,
        alloc: Global,
        seat: &mut LockedBook,
        book: &SharedBook,
    ) -> Result<(), NoMemory>
        requires seat { IsSeatOf book.now seat.old }
        requires known { GoesOnLater self.old (names_by seat.old) }
        ensures seat { IsSeatOf book.now seat.new }
        ensures ok { OnOk result (self.new ≡ names_by seat.new) }
        ensures steps { OnOk result (BringsUp self.old (part_of seat.old) (part_of seat.new)) }
        ensures err { OnErr result (self.new ≡ self.old) }
        ensures looks { OnErr result (Looks (part_of seat.old) (part_of seat.new)) }
    {
        let mut fresh = Vec::new(alloc);
        let count = seat.read_changes(book, self.count, &mut fresh)?;
        self.list.apply(alloc, &fresh)?;
        self.count = count;
        self.at = newest_of(self.at, &fresh);
        Ok(())
    }
}
