//! The flusher's seats and tokens.
ghost use Rattle.std.specs.Prelude.{◌≡◌, ◌⊎◌, map, IfOk, OnOk, OnErr};
ghost use Rattle.merge_round.specs.Halves.{bins_by};
ghost use Rattle.merge_round.specs.Rounds.{after_round, worker_values, ArePartsOf};
ghost use Rattle.metric_words.specs.CounterLedger.{flush_known, bank_id};
ghost use Rattle.metric_words.specs.GaugeLedger.{gauge_known, gauges_id};
ghost use Rattle.turn_cell.specs.Tokens.{cell_id};
ghost use Rattle.book_access.specs.Calling.{Calls};
ghost use Rattle.book_access.specs.Making.{IsAsFound};
ghost use Rattle.locked_book.specs.Sharing.{known_by, IsSeatOf};
ghost use Rattle.locked_book.specs.Lists.{AreMetrics, SweepsListed};
ghost use Rattle.flush_cells.specs.Cells.{cell_of};
ghost use Rattle.flush_cells.specs.Asks.{AsksEach};
ghost use Rattle.flusher.specs.Shown.{Flushed, ReadsWords};

use flush_cells::FlushCells;
use flush_words::{latch_into, load_into};
use locked_book::{Listing, LockedBook, Way};
use metric_words::{FlushSeat, GaugeSeat};
use stat_defs::{FlushRecord, List, NoMemory};
use std::alloc::Global;
use std::sync::Wait;
use store_parts::Store;

/// The store's seat of the book, the flusher's seats of the counters and of the gauges, and its tokens of the workers'
/// cells.
#[derive(Drop)]
pub struct FlusherParts {
    pub seat: LockedBook,
    pub counters: FlushSeat,
    pub gauges: GaugeSeat,
    pub cells: FlushCells,
}

impl FlusherParts {
    // Sweeps the book, and then asks each worker for its half. The memory of the requests is taken before the sweep is
    // logged.
    pub(crate) fn begin<R: Wait>(
        &mut self,
        rt: &R,
        alloc: Global,
        store: &Store,
    ) -> Result<Listing, NoMemory>
        requires seat { IsSeatOf store.now.book self.old.seat × ((known_by self.old.seat).number ≡ 0) }
        requires cells { map cell_of self.old.cells.tokens.items ≡ map cell_id store.now.cells.items }
        ensures seat { IsSeatOf store.now.book self.new.seat }
        ensures cells { map cell_of self.new.cells.tokens.items ≡ map cell_of self.old.cells.tokens.items }
        ensures sweeps { IfOk result (λ listing.
            Calls (SweepsListed listing) (known_by self.old.seat) (known_by self.new.seat)) }
        ensures asks { OnOk result (AsksEach self.old.cells.tokens.items self.new.cells.tokens.items) }
        ensures rest { (self.new.counters ≡ self.old.counters) × (self.new.gauges ≡ self.old.gauges)
            × (self.new.cells.parents ≡ self.old.cells.parents) }
        ensures err { OnErr result ((self.new.cells ≡ self.old.cells) × ((self.new.seat ≡ self.old.seat)
            ⊎ Calls IsAsFound (known_by self.old.seat) (known_by self.new.seat))) }
    {
        let room = self.cells.room(alloc)?;
        let way = Way {
            rt,
            book: &store.book,
        };
        let Ok(listing) = self.seat.sweep(&way, alloc) else {
            drop(room);
            return Err(NoMemory);
        };
        self.cells.ask(alloc, room, &store.cells);
        Ok(listing)
    }

    // One latch of each counter and one load of each gauge of the listing, in order, and the parts of the round. All
    // memory is taken before the first latch.
    pub(crate) fn flush(
        &mut self,
        alloc: Global,
        store: &Store,
        listing: &Listing,
    ) -> Result<FlushRecord, NoMemory>
        requires banks { ((flush_known self.old.counters).bank ≡ bank_id store.now.counters)
            × ((gauge_known self.old.gauges).bank ≡ gauges_id store.now.gauges) }
        requires metrics { AreMetrics listing.now.counters × AreMetrics listing.now.gauges }
        ensures shows { IfOk result (λ shown. Flushed listing.now shown) }
        ensures parts { IfOk result (λ shown.
            ArePartsOf (λ worker. bins_by (worker_values worker self.old.cells.parents.round)) shown.parts) }
        ensures words { IfOk result (λ shown. ReadsWords shown self.old self.new) }
        ensures round { OnOk result (self.new.cells.parents ≡ after_round self.old.cells.parents) }
        ensures rest { (self.new.seat ≡ self.old.seat) × (self.new.cells.tokens ≡ self.old.cells.tokens) }
        ensures err { OnErr result (self.new ≡ self.old) }
    {
        let counter_ids = listing.counters.items();
        let gauge_ids = listing.gauges.items();
        let mut deltas = Vec::with_capacity(alloc, counter_ids.len())?;
        let mut words = Vec::with_capacity(alloc, gauge_ids.len())?;
        let parts = self.cells.parts(alloc)?;
        latch_into(
            &store.counters,
            &mut self.counters,
            counter_ids,
            &mut deltas,
        );
        load_into(&store.gauges, &mut self.gauges, gauge_ids, &mut words);
        Ok(FlushRecord {
            at: listing.at,
            deltas: List::of(deltas),
            gauges: List::of(words),
            parts: List::of(parts),
        })
    }
}
