//! What the workers of a run did, taken together.
ghost use Rattle.std.specs.Prelude.{◌≡◌, ◌+◌, [], ℕ, IfOk};
ghost use Rattle.run_files.specs.Gathering.{AreGathered, Puts, HasRoom};

use recorder::Ended;
use stat_defs::{List, NoMemory, Verdict, WorkerEnd};
use std::alloc::Global;
use worker_run::Worked;

/// The workers' verdicts, how their files ended, and what their recorders left, each in the order of the workers.
#[derive(Drop)]
pub(crate) struct Gathered {
    pub(crate) verdicts: Vec<List<Verdict>>,
    pub(crate) ends: Vec<WorkerEnd>,
    pub(crate) ended: Vec<Ended>,
}

impl Gathered {
    // Nothing yet, with room for this number of workers.
    fn with_room(alloc: Global, workers: usize) -> Result<Gathered, NoMemory>
        ensures none { IfOk result (λ all. (all.verdicts.items ≡ []) × (all.ends.items ≡ []) × (all.ended.items ≡ [])) }
        ensures room { IfOk result (HasRoom workers) }
    {
        Ok(Gathered {
            verdicts: Vec::with_capacity(alloc, workers)?,
            ends: Vec::with_capacity(alloc, workers)?,
            ended: Vec::with_capacity(alloc, workers)?,
        })
    }

    // What one worker more did.
    fn put(&mut self, worked: Worked)
        requires { HasRoom 1 self.old }
        ensures puts { Puts worked self.old self.new }
        ensures room { (more : ℕ) → HasRoom (more + 1) self.old → HasRoom more self.new }
    {
        let Worked {
            verdicts,
            end,
            ended,
        } = worked;
        self.verdicts.push_reserved(List::of(verdicts));
        self.ends.push_reserved(end);
        self.ended.push_reserved(ended);
    }
}

/// What all workers did, where none of them wanted memory.
pub(crate) fn gather(
    alloc: Global,
    results: Vec<Result<Worked, NoMemory>>,
) -> Result<Gathered, NoMemory>
    ensures { IfOk result (AreGathered results.items) }
{
    let mut all = Gathered::with_room(alloc, results.len())?;
    for outcome in results {
        let Ok(worked) = outcome else {
            return Err(NoMemory);
        };
        all.put(worked);
    }
    Ok(all)
}
