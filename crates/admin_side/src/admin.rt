//! The reader.
ghost use Rattle.std.specs.Prelude.{◌≡◌, ◌++◌, ◌∷◌, [], IfOk, OnErr};
ghost use Rattle.book_lock.specs.Seats.{seat_lock};
ghost use Rattle.metric_words.specs.CounterLedger.{read_known};
ghost use Rattle.metric_words.specs.GaugeLedger.{gauge_known};
ghost use Rattle.locked_book.specs.Sharing.{part_of};
ghost use Rattle.admin_side.specs.Reader.{new_reader, IsReaderOf, Reads, LooksOnly, ReaderAccounts};

use crate::known_names::KnownNames;
use crate::words::ReadWords;
use ghost_list::GhostList;
use locked_book::{LockedBook, SharedBook};
use metric_words::{CounterBank, GaugeBank};
use stat_defs::{NameOp, NoMemory, ReadRecord};
use std::alloc::Global;
use std::collections::LinkedList;
use std::marker::Model;

// A reading, and the changes of names that it knew. No value of this type is made.
pub(crate) struct ReadNote {
    pub(crate) shown: ReadRecord,
    pub(crate) names: LinkedList<NameOp>,
}

/// A reader of a store's book and words. Contracts see what its seats know, and each of its readings with the changes of
/// names that it knew, in order.
#[derive(Drop)]
pub struct Admin {
    seat: LockedBook,
    words: ReadWords,
    names: KnownNames,
    reads: GhostList<ReadNote>,
}

impl Model for Admin {
    ghost use Rattle.admin_side.specs.Reader.{ReaderKnown};

    ghost Value = { ReaderKnown };

    ghost use Rattle.admin_side.specs.ReaderKept.{shown, IsKept};

    ghost view = { shown };

    ghost invariant = { IsKept };
}

// The readings, and one more of these names.
fn with_read(
    reads: &GhostList<ReadNote>,
    shown: &ReadRecord,
    names: &KnownNames,
) -> GhostList<ReadNote>
    ensures { result.items ≡ reads.now.items ++ record { shown = shown.now; names = names.now } ∷ [] }
{
    reads.and_for(&(shown, names))
}

impl Admin {
    /// A reader that has made no reading.
    pub fn new(alloc: Global, seat: LockedBook, words: ReadWords) -> Admin
        requires counters { (read_known words.counters).own.steps ≡ [] }
        requires gauges { ((gauge_known words.gauges).own.steps ≡ []) × ((gauge_known words.gauges).taken ≡ []) }
        ensures { result ≡ new_reader (seat_lock seat.seat) (part_of seat)
            (read_known words.counters) (gauge_known words.gauges) }
    {
        Admin {
            seat,
            words,
            names: KnownNames::new(alloc),
            reads: GhostList::new(),
        }
    }

    /// The counters and gauges that are not gone by the published changes of names, each with the word that one load
    /// found. It does not wait, whoever has the book. It takes time in the metrics that are not gone and in the changes
    /// that are new.
    pub fn read(
        &mut self,
        book: &SharedBook,
        alloc: Global,
        counters: &CounterBank,
        gauges: &GaugeBank,
    ) -> Result<ReadRecord, NoMemory>
        requires own { IsReaderOf book.now counters.now gauges.now self.old }
        ensures own { IsReaderOf book.now counters.now gauges.now self.new }
        ensures ok { IfOk result (λ shown. Reads shown self.old self.new) }
        ensures err { OnErr result (LooksOnly self.old self.new) }
    {
        self.names.bring_up(alloc, &mut self.seat, book)?;
        let shown = self.words.read(alloc, counters, gauges, &self.names)?;
        self.reads = with_read(&self.reads, &shown, &self.names);
        Ok(shown)
    }

    /// The seats of a reader at the end of the store.
    pub fn into_seats(self) -> (LockedBook, ReadWords)
        ensures seat { (part_of result.0 ≡ self.part) × (seat_lock result.0.seat ≡ self.lock) }
        ensures words { (read_known result.1.counters ≡ self.counters)
            × (gauge_known result.1.gauges ≡ self.gauges) }
        ensures accounts { ReaderAccounts self }
    {
        let Admin {
            seat,
            words,
            names: _,
            reads: _,
        } = self;
        (seat, words)
    }
}
