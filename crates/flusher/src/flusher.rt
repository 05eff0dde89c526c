//! The flusher.
ghost use Rattle.std.specs.Prelude.{◌≡◌, [], length, All};
ghost use Rattle.merge_round.specs.Rounds.{new_parents};
ghost use Rattle.metric_words.specs.CounterLedger.{flush_known};
ghost use Rattle.metric_words.specs.GaugeLedger.{gauge_known};
ghost use Rattle.locked_book.specs.Sharing.{known_by};
ghost use Rattle.flusher.specs.Parts.{ids_by};
ghost use Rattle.flusher.specs.Flusher.{new_flusher, IsNewToken, FlusherAccounts};

use crate::parts::FlusherParts;
use flush_cells::FlushCells;
use ghost_list::GhostList;
use locked_book::{Listing, LockedBook};
use metric_words::{FlushSeat, GaugeSeat};
use stat_defs::{Entry, FlushRecord};
use std::collections::LinkedList;
use std::marker::Model;

// A round: the log that its sweep found, the sweep's entry, and of each worker, in order, the values of each half that
// was merged. No value of this type is made.
pub(crate) struct RoundNote {
    pub(crate) found: LinkedList<Entry>,
    pub(crate) sweep: Entry,
    pub(crate) halves: LinkedList<LinkedList<LinkedList<(u64, u64)>>>,
}

// A flush and its round. No value of this type is made.
pub(crate) struct FlushNote {
    pub(crate) shown: FlushRecord,
    pub(crate) round: RoundNote,
}

/// A flusher of a store. Contracts see what its seats know, its tokens, what it merged, each of its flushes with the log
/// that its sweep found, in order, and the round that is begun.
#[derive(Drop)]
pub struct Flusher {
    pub(crate) parts: FlusherParts,
    /// The round that is begun.
    pub(crate) round: Option<Listing>,
    pub(crate) flushes: GhostList<FlushNote>,
}

impl Model for Flusher {
    ghost use Rattle.flusher.specs.Flusher.{FlusherKnown};

    ghost Value = { FlusherKnown };

    ghost use Rattle.flusher.specs.FlusherKept.{shown, IsKept};

    ghost view = { shown };

    ghost invariant = { IsKept };
}

impl Flusher {
    /// A flusher that has begun no round. Takes the store's seat of the book, and the tokens of all workers' cells.
    pub fn new(
        seat: LockedBook,
        counters: FlushSeat,
        gauges: GaugeSeat,
        cells: FlushCells,
    ) -> Flusher
        requires seat { (known_by seat).made ≡ [] }
        requires counters { ((flush_known counters).own.steps ≡ []) × ((flush_known counters).taken ≡ []) }
        requires gauges { ((gauge_known gauges).own.steps ≡ []) × ((gauge_known gauges).taken ≡ []) }
        requires cells { (cells.parents ≡ new_parents) × All IsNewToken cells.tokens.items }
        requires workers { length cells.tokens.items ≡ (known_by seat).workers }
        requires sized { ((flush_known counters).own.workers ≡ length cells.tokens.items)
            × ((gauge_known gauges).own.workers ≡ length cells.tokens.items) }
        ensures { result ≡ new_flusher
            (ids_by (record { seat = seat; counters = counters; gauges = gauges; cells = cells }))
            (known_by seat) (flush_known counters) (gauge_known gauges) cells.tokens.items }
    {
        Flusher {
            parts: FlusherParts {
                seat,
                counters,
                gauges,
                cells,
            },
            round: None,
            flushes: GhostList::new(),
        }
    }

    /// The seats and tokens of a flusher at the end of the store.
    pub fn into_parts(self) -> FlusherParts
        ensures of { ids_by result ≡ self.of }
        ensures seat { known_by result.seat ≡ self.seat }
        ensures words { (flush_known result.counters ≡ self.counters) × (gauge_known result.gauges ≡ self.gauges) }
        ensures cells { (result.cells.tokens.items ≡ self.tokens) × (result.cells.parents ≡ self.parents) }
        ensures accounts { FlusherAccounts self }
    {
        let Flusher {
            parts,
            round: _,
            flushes: _,
        } = self;
        parts
    }
}
