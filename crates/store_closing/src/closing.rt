//! The end of a store.
ghost use Rattle.std.specs.Prelude.{◌≡◌, None, IfOk};
ghost use Rattle.admin_side.specs.Reader.{IsReaderOf};
ghost use Rattle.flusher.specs.Flusher.{IsFlusherOf};
ghost use Rattle.store_closing.specs.Closes.{HaveEnded, Closes};

use crate::last_words::{last_deltas, last_readings};
use crate::sorted::Sorted;
use crate::sorting::sort_left;
use admin_side::{Admin, ReadWords};
use cells_end::end_cells;
use flusher::{Flusher, FlusherParts};
use locked_book::close_book;
use metric_words::WordSeats;
use recorder::Ended;
use stat_defs::{FlushRecord, LastFlush, List, NoMemory};
use std::alloc::Global;
use store_parts::Store;

/// The last flush of a store, and its whole log, once every worker has ended and the flusher and the reader are done.
/// The book is swept once more; each counter that was ever made is latched, with all workers' seats in one hand, so that
/// nothing is pending afterwards; each gauge of the sweep's listing is loaded; and what is left in the workers' cells
/// and their active halves are merged. It does not wait, and takes time in the metrics that were made and in the values
/// that are left. Where there is no memory, all is gone.
pub fn close_store(
    alloc: Global,
    store: Store,
    ended: Vec<Ended>,
    flusher: Flusher,
    admin: Admin,
) -> Result<LastFlush, NoMemory>
    requires workers { HaveEnded store ended.items }
    requires flusher { IsFlusherOf store flusher × (flusher.round ≡ None) }
    requires reader { IsReaderOf store.book store.counters store.gauges admin }
    ensures { IfOk result (λ last. Closes store ended.items flusher admin last) }
{
    let Store {
        book,
        counters,
        gauges,
        cells,
    } = store;
    let own = flusher.into_parts();
    let (reader_seat, reader) = admin.into_seats();
    let sorted = sort_left(alloc, own.seat, reader_seat, reader.gauges, ended, cells)?;
    let end = close_book(alloc, book, sorted.seats)?;
    let seats = WordSeats {
        workers: sorted.counts,
        flusher: own.counters,
        reader: reader.counters,
    };
    let deltas = last_deltas(alloc, counters, seats, end.made.items())?;
    let words = last_readings(
        alloc,
        gauges,
        own.gauges,
        sorted.gauges,
        end.listing.gauges.items(),
    )?;
    let parts = end_cells(alloc, own.cells, sorted.ends)?;
    Ok(LastFlush {
        last: FlushRecord {
            at: end.listing.at,
            deltas: List::of(deltas),
            gauges: List::of(words),
            parts: List::of(parts),
        },
        log: end.log,
        names: end.names,
    })
}
