//! The list of a reader.
ghost use Rattle.std.specs.Prelude.{◌≡◌, ◌∷◌, ◌++◌, [], OnOk, OnErr};
ghost use Rattle.stat_defs.specs.declared.ids.Kind.TheVariants.{Counter, Gauge};
ghost use Rattle.stat_defs.specs.Changes.{names_after};
ghost use Rattle.name_list.specs.Ids.{ids_of};

use crate::draft::brought_up;
use ghost_list::GhostList;
use stat_defs::{Kind, MetricId, NameOp, NoMemory};
use std::alloc::Global;
use std::collections::LinkedList;
use std::marker::Model;

// The changes of one call. No value of this type is made.
pub(crate) struct Batch {
    pub(crate) changes: LinkedList<NameOp>,
}

/// The counters and the gauges that are not gone. Contracts see the changes that the list was brought up to, in order.
#[derive(Drop)]
pub struct NameList {
    counters: Vec<MetricId>,
    gauges: Vec<MetricId>,
    batches: GhostList<Batch>,
}

impl Model for NameList {
    ghost use Rattle.std.specs.Prelude.{List};
    ghost use Rattle.stat_defs.specs.declared.history.NameOp.{NameOp};

    ghost Value = { List NameOp };

    ghost use Rattle.name_list.specs.Kept.{changes_of, IsKept};

    ghost view = { changes_of };

    ghost invariant = { IsKept };
}

// The changes, and then these.
fn with_batch(batches: &GhostList<Batch>, changes: &[NameOp]) -> GhostList<Batch>
    ensures { result.items ≡ batches.now.items ++ record { changes = changes.now } ∷ [] }
{
    batches.and_for(&changes)
}

impl NameList {
    /// The list of a reader that knows no change.
    pub fn new(alloc: Global) -> NameList
        ensures { result ≡ [] }
    {
        NameList {
            counters: Vec::new(alloc),
            gauges: Vec::new(alloc),
            batches: GhostList::new(),
        }
    }

    /// The counters that are not gone, in the order in which they were made.
    pub fn counters(&self) -> &[MetricId]
        ensures { result.now ≡ ids_of Counter (names_after self.now) }
    {
        &self.counters
    }

    /// The gauges that are not gone, in the order in which they were made.
    pub fn gauges(&self) -> &[MetricId]
        ensures { result.now ≡ ids_of Gauge (names_after self.now) }
    {
        &self.gauges
    }

    /// Brings the list up by further changes. It takes time in the names that the list has and in these changes, and
    /// none where there is no change. The memory is taken before anything is changed.
    pub fn apply(&mut self, alloc: Global, changes: &[NameOp]) -> Result<(), NoMemory>
        ensures ok { OnOk result (self.new ≡ self.old ++ changes.now) }
        ensures err { OnErr result (self.new ≡ self.old) }
    {
        if changes.is_empty() {
            return Ok(());
        }
        let counters = brought_up(alloc, &self.counters, Kind::Counter, changes)?;
        let gauges = brought_up(alloc, &self.gauges, Kind::Gauge, changes)?;
        self.counters = counters;
        self.gauges = gauges;
        self.batches = with_batch(&self.batches, changes);
        Ok(())
    }
}
