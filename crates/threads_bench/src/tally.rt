//! The smallest book with a log: each of its words is the number of the seat that pushed it. Its list of names never
//! changes.
ghost use Rattle.std.specs.Prelude.{◌≡◌, ◌++◌, ◌∷◌, [], None, MatchResult};

use stat_defs::{Booked, NameOp, NoMemory};
use std::alloc::Global;

#[derive(Drop)]
pub struct Tally {
    pub words: Vec<u64>,
    /// The one change of names that it may have. None of these books has it.
    pub change: Option<NameOp>,
}

impl Booked for Tally {
    ghost use Rattle.threads_bench.specs.Tallies.{history_of, changes_of};

    ghost history = { λ tally. history_of tally.words.items };

    ghost changed = { λ tally. changes_of tally.change };

    fn releases(&self) -> u64 {
        0
    }

    fn changes(&self) -> u32 {
        match self.change {
            Some(_) => 1,
            None => 0,
        }
    }

    fn change(&self, _k: u32) -> NameOp {
        match self.change {
            Some(change) => change,
            None => unreachable!(),
        }
    }
}

impl Tally {
    pub fn new(alloc: Global) -> Tally
        ensures { (result.words.items ≡ []) × (result.change ≡ None) }
    {
        Tally {
            words: Vec::new(alloc),
            change: None,
        }
    }

    pub fn push(&mut self, number: u32) -> Result<(), NoMemory>
        ensures words { MatchResult result (λ _. self.new.words.items ≡ self.old.words.items ++ number ∷ [])
            (λ _. self.new.words.items ≡ self.old.words.items) }
        ensures change { self.new.change ≡ self.old.change }
    {
        self.words.push(u64::from(number))?;
        Ok(())
    }
}
