//! The rounds of a flusher.
ghost use Rattle.std.specs.Prelude.{◌≡◌, ◌⊎◌, ◌++◌, ◌∷◌, [], None, All, IsSome, IfOk, OnOk, OnErr};
ghost use Rattle.seat_parts.specs.Parts.{first_or};
ghost use Rattle.flush_cells.specs.declared.passing.Pass.TheVariants.{Done};
ghost use Rattle.flush_cells.specs.Cells.{IsNotHolding};
ghost use Rattle.flush_cells.specs.Late.{pass_from};
ghost use Rattle.flusher.specs.FlusherKept.{round_in, no_round};
ghost use Rattle.flusher.specs.Flusher.{IsFlusherOf, FindsAtMost, Begins, LooksOnce, Flushes};

use crate::flusher::{FlushNote, Flusher, RoundNote};
use crate::parts::FlusherParts;
use flush_cells::Pass;
use ghost_list::GhostList;
use locked_book::Listing;
use stat_defs::{FlushRecord, NoMemory};
use std::alloc::Global;
use std::sync::Wait;
use store_parts::Store;

// The round of this listing, as it is before the flush.
fn round_of(parts: &FlusherParts, listing: &Listing) -> GhostList<RoundNote>
    ensures { result.items ≡ round_in parts.now listing.now ∷ [] }
{
    GhostList::new().and_for(&(parts, listing))
}

// The flushes, and one more, of the round in the list.
fn with_flush(
    flushes: &GhostList<FlushNote>,
    shown: &FlushRecord,
    round: &GhostList<RoundNote>,
) -> GhostList<FlushNote>
    ensures { result.items ≡ flushes.now.items
        ++ record { shown = shown.now; round = first_or no_round round.now.items } ∷ [] }
{
    flushes.and_for(&(shown, round))
}

impl Flusher {
    /// Begins a round: sweeps the book, whose list before the sweep is what the flush will show, and asks each worker
    /// once for its half. May wait for the lock of the book. It takes time in the metrics that are not gone and in the
    /// workers. Where there is no memory, no round is begun.
    pub fn begin<R: Wait>(&mut self, rt: &R, alloc: Global, store: &Store) -> Result<(), NoMemory>
        requires own { IsFlusherOf store.now self.old }
        requires none { self.old.round ≡ None }
        ensures own { IsFlusherOf store.now self.new }
        ensures ok { OnOk result (Begins self.old self.new) }
        ensures err { OnErr result (FindsAtMost self.old self.new) }
    {
        let listing = self.parts.begin(rt, alloc, store)?;
        self.round = Some(listing);
        Ok(())
    }

    /// Looks once at the cell of each worker that was asked, without waiting, and merges the halves that are there.
    /// Tells the least worker whose cell said not yet, with the word that was found there, or that there is none. Where
    /// there is no memory for a merge, that half is held until the next pass.
    pub fn pass(&mut self, alloc: Global, store: &Store) -> Result<Pass, NoMemory>
        requires own { IsFlusherOf store.now self.old }
        requires begun { IsSome self.old.round }
        ensures own { IsFlusherOf store.now self.new }
        ensures ok { OnOk result (LooksOnce self.old self.new) }
        ensures told { IfOk result (λ pass. pass ≡ pass_from 1 self.new.tokens) }
        ensures none_held { OnOk result (All IsNotHolding self.new.tokens) }
        ensures err { OnErr result ((self.new ≡ self.old) ⊎ LooksOnce self.old self.new) }
    {
        self.parts.cells.pass(alloc, &store.cells)
    }

    /// Ends a round of which each worker that was asked gave its half or left: latches each counter that was not gone
    /// before the sweep, loads each gauge that was not gone, and gives the parts of the halves. It does not wait. Where
    /// there is no memory, all is as it was.
    pub fn flush(&mut self, alloc: Global, store: &Store) -> Result<FlushRecord, NoMemory>
        requires own { IsFlusherOf store.now self.old }
        requires begun { IsSome self.old.round }
        requires done { (pass_from 1 self.old.tokens ≡ Done) × All IsNotHolding self.old.tokens }
        ensures own { IsFlusherOf store.now self.new }
        ensures ok { IfOk result (λ shown. Flushes shown self.old self.new) }
        ensures err { OnErr result (self.new ≡ self.old) }
    {
        let Some(listing) = &self.round else {
            unreachable!()
        };
        let round = round_of(&self.parts, listing);
        let shown = self.parts.flush(alloc, store, listing)?;
        self.flushes = with_flush(&self.flushes, &shown, &round);
        self.round = None;
        Ok(shown)
    }
}
