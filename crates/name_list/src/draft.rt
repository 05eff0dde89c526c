//! A list of one kind while it is brought up to date.
ghost use Rattle.std.specs.Prelude.{◌≡◌, ◌==◌, ◌∷◌, ◌++◌, [], not, filter, IfOk, OnOk};
ghost use Rattle.name_list.specs.Ids.{changed_ids, ids_from};

use crate::pass::{free_number, take_out};
use stat_defs::{Kind, MetricId, NameOp, NoMemory};
use std::alloc::Global;
use std::marker::Model;

/// The metrics of a list, and the numbers of those that are still to be taken out. Contracts see what is left then.
#[derive(Drop)]
pub(crate) struct Draft {
    ids: Vec<MetricId>,
    gone: Vec<u32>,
    // Above each number that is still to be taken out.
    above: u64,
}

impl Model for Draft {
    ghost use Rattle.std.specs.Prelude.{List};
    ghost use Rattle.stat_defs.specs.declared.ids.MetricId.{MetricId};

    ghost Value = { List MetricId };

    ghost use Rattle.name_list.specs.Kept.{left, IsBelow};

    ghost view = { left };

    ghost invariant = { IsBelow };
}

impl Draft {
    // These metrics.
    pub(crate) fn of(alloc: Global, ids: &[MetricId]) -> Result<Draft, NoMemory>
        ensures { IfOk result (λ draft. draft ≡ ids.now) }
    {
        let ids = Vec::from_slice(alloc, ids)?;
        let gone = Vec::new(alloc);
        Ok(Draft {
            ids,
            gone,
            above: 0,
        })
    }

    // One metric more. A number is used once, so none that is to be taken out comes again; for a list in which it does,
    // they are taken out before.
    fn put(&mut self, id: MetricId) -> Result<(), NoMemory>
        ensures { OnOk result (self.new ≡ self.old ++ id ∷ []) }
    {
        free_number(&mut self.ids, &mut self.gone, self.above, id);
        self.ids.push(id)?;
        Ok(())
    }

    // Without this metric.
    fn take(&mut self, id: MetricId) -> Result<(), NoMemory>
        ensures { OnOk result (self.new ≡ filter (λ x. not (x.0 == id.0)) self.old) }
    {
        self.gone.push(id.0)?;
        self.above = self.above.max(id.0 as u64 + 1);
        Ok(())
    }

    // What a change makes of a list of metrics of the kind.
    pub(crate) fn change(&mut self, kind: Kind, change: NameOp) -> Result<(), NoMemory>
        ensures { OnOk result (self.new ≡ changed_ids kind change self.old) }
    {
        match change {
            NameOp::Made {
                at: _,
                id,
                kind: made,
            } => {
                if made == kind {
                    self.put(id)?;
                }
            }
            NameOp::Gone { at: _, id } => self.take(id)?,
        }
        Ok(())
    }

    // The metrics that are left.
    pub(crate) fn into_ids(self) -> Vec<MetricId>
        ensures { result.items ≡ self }
    {
        let Draft {
            mut ids,
            mut gone,
            above: _,
        } = self;
        take_out(&mut ids, &mut gone);
        ids
    }
}

// The metrics of the kind, brought up by these changes.
pub(crate) fn brought_up(
    alloc: Global,
    ids: &[MetricId],
    kind: Kind,
    changes: &[NameOp],
) -> Result<Vec<MetricId>, NoMemory>
    ensures { IfOk result (λ new. new.items ≡ ids_from kind changes.now ids.now) }
{
    let mut draft = Draft::of(alloc, ids)?;
    for change in changes {
        draft.change(kind, *change)?;
    }
    Ok(draft.into_ids())
}
