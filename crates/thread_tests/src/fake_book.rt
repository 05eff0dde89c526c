//! A book for the tests: a list of entries, with room for so many, and of changes of names.
ghost use Rattle.std.specs.Prelude.{◌≡◌, ◌<◌, ◌≤◌, ◌++◌, ◌∷◌, [], MatchResult, cond, length};
ghost use Rattle.stat_defs.specs.Books.{releases_in, is_released};
ghost use Rattle.stat_defs.specs.declared.history.NameOp.{NameOp};
ghost use Rattle.stat_defs.specs.Changes.{at_of, id_of};

use stat_defs::{Booked, Entry, Kind, MetricId, NameOp, NoMemory, Reply};
use std::alloc::Global;

/// Changes of names that the book has room for.
pub(crate) const NAMES: u32 = 4;

#[derive(Drop)]
pub(crate) struct FakeBook {
    pub(crate) entries: Vec<Entry>,
    pub(crate) changes: Vec<NameOp>,
    releases: u64,
    room: usize,
    ghost counted: { releases ≡ releases_in entries.items },
    ghost few: { length changes.items ≤ 4 },
}

impl Booked for FakeBook {
    ghost use Rattle.book_lock.specs.Locked.{blank_config};

    ghost history = { λ b. record { config = blank_config; workers = 4; log = b.entries.items } };

    ghost changed = { λ b. b.changes.items };

    fn releases(&self) -> u64 {
        self.releases
    }

    fn changes(&self) -> u32 {
        self.changes.len() as u32
    }

    fn change(&self, k: u32) -> NameOp {
        self.changes[k as usize]
    }
}

impl FakeBook {
    pub(crate) fn new(alloc: Global, room: usize) -> FakeBook
        ensures { (result.entries.items ≡ []) × (result.changes.items ≡ []) }
    {
        FakeBook {
            entries: Vec::new(alloc),
            changes: Vec::new(alloc),
            releases: 0,
            room,
        }
    }

    // Refused where the room is full.
    pub(crate) fn add(&mut self, entry: Entry) -> Result<(), NoMemory>
        ensures entries { MatchResult result (λ _. self.new.entries.items ≡ self.old.entries.items ++ entry ∷ [])
            (λ _. self.new.entries.items ≡ self.old.entries.items) }
        ensures changes { self.new.changes.items ≡ self.old.changes.items }
    {
        if self.entries.len() >= self.room || self.releases == u64::MAX {
            return Err(NoMemory);
        }
        let releases = self.releases + released(&entry.reply);
        self.entries.push(entry)?;
        self.releases = releases;
        Ok(())
    }

    // The change of metric 0 that the entries past so many made. Refused where there is no such entry, or no room.
    pub(crate) fn note(&mut self, before: usize, gone: bool) -> Result<(), NoMemory>
        ensures entries { self.new.entries.items ≡ self.old.entries.items }
        ensures changes { MatchResult result
            (λ _. (op : NameOp) × (self.new.changes.items ≡ self.old.changes.items ++ op ∷ [])
            × (at_of op ≡ length self.new.entries.items) × (id_of op ≡ 0) × (before < length self.new.entries.items))
            (λ _. self.new.changes.items ≡ self.old.changes.items) }
    {
        if self.entries.len() <= before || self.changes.len() >= NAMES as usize {
            return Err(NoMemory);
        }
        let op = change_at(self.entries.len() as u64, gone);
        self.changes.push(op)?;
        Ok(())
    }
}

fn change_at(at: u64, gone: bool) -> NameOp
    ensures { (at_of result ≡ at) × (id_of result ≡ 0) }
{
    let id = MetricId(0);
    if gone {
        return NameOp::Gone { at, id };
    }
    NameOp::Made {
        at,
        id,
        kind: Kind::Counter,
    }
}

fn released(reply: &Reply) -> u64
    ensures value { result ≡ cond (is_released reply.now) 1 0 }
    ensures small { result ≤ 1 }
{
    match reply {
        Reply::Released(_) => 1,
        _ => 0,
    }
}
