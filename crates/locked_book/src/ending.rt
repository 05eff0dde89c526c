//! The last sweep of a book, and its log.
ghost use Rattle.std.specs.Prelude.{◌≡◌, All, IfOk, length, map};
ghost use Rattle.std.specs.List.{range_with_len};
ghost use Rattle.seat_history.specs.History.{with_log};
ghost use Rattle.stat_book.specs.Calls.{state_of, IsLegal};
ghost use Rattle.locked_book.specs.Sharing.{first_of, seat_count, known_by, names_by, AreAllSeats};
ghost use Rattle.locked_book.specs.Lists.{AreMetrics};
ghost use Rattle.locked_book.specs.Ending.{as_id, counters_made, GivesNames, AreFirstOf, IsLastOf, EndsBook};

use crate::listing::{Listing, of_kind};
use crate::shared::{LockedBook, SharedBook};
use crate::sweeping::sweep_in;
use stat_book::{Book, BookParts};
use stat_defs::{Entry, Kind, List, LogNames, MetricId, NoMemory};
use std::alloc::Global;

/// What a book leaves: the listing of its last sweep, all counters that were ever made, rising, and all calls with their
/// replies and the names in them.
#[derive(Drop)]
pub struct BookEnd {
    pub listing: Listing,
    pub made: List<MetricId>,
    pub log: List<Entry>,
    pub names: LogNames,
}

// The numbers of all metrics that were made, rising.
fn all_made(alloc: Global, book: &Book) -> Result<Vec<MetricId>, NoMemory>
    ensures { IfOk result (λ ids. ids.items ≡ map as_id (range_with_len 0 (length (state_of book.now).metrics))) }
{
    let made = book.made();
    Ok((0..made).map(MetricId).collect(alloc)?)
}

// All counters that were made, rising.
fn counters_in(alloc: Global, book: &Book) -> Result<Vec<MetricId>, NoMemory>
    ensures made { IfOk result (λ ids. ids.items ≡ counters_made (state_of book.now)) }
    ensures metrics { IfOk result (λ ids. AreMetrics ids.items) }
    ensures legal { IsLegal book.now }
{
    book.has_legal_log();
    let ids = all_made(alloc, book)?;
    of_kind(alloc, book, Kind::Counter, &ids)
}

// What a book leaves. A book that there is no memory for is gone.
fn end_of(alloc: Global, book: Book) -> Result<BookEnd, NoMemory>
    ensures { IfOk result (λ end. IsLastOf book end) }
{
    let mut book = book;
    let Ok(listing) = sweep_in(&mut book, alloc) else {
        drop(book);
        return Err(NoMemory);
    };
    let Ok(made) = counters_in(alloc, &book) else {
        drop(book);
        return Err(NoMemory);
    };
    let BookParts { log, names } = book.into_parts(alloc)?;
    Ok(BookEnd {
        listing,
        made: List::of(made),
        log: List::of(log),
        names,
    })
}

/// The end of a shared book: all its seats give it back, and it is swept once more. Where there is no memory, all is
/// gone. It takes time in the metrics that were made, and does not wait.
///
/// The changes of names that each seat found, left or loaded give the names that were not gone in the first entries of
/// the log.
pub fn close_book(
    alloc: Global,
    book: SharedBook,
    seats: Vec<LockedBook>,
) -> Result<BookEnd, NoMemory>
    requires { AreAllSeats book seats.items }
    ensures ends { IfOk result (λ end. EndsBook (first_of book) (seat_count book) (map known_by seats.items) end) }
    ensures names { IfOk result (λ end. All (GivesNames (with_log end.log (first_of book))) (map names_by seats.items)) }
    ensures changes { IfOk result (λ end. All (AreFirstOf (with_log end.log (first_of book)))
        (map names_by seats.items)) }
{
    let book = book.close(alloc, seats)?;
    end_of(alloc, book)
}
