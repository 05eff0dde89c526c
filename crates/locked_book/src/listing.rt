//! The counters and the gauges of a book that are not gone.
ghost use Rattle.std.specs.Prelude.{◌≡◌, ◌<◌, All, IfOk, filter, length};
ghost use Rattle.stat_book.specs.Calls.{state_of, IsLegal};
ghost use Rattle.locked_book.specs.Lists.{Lists, is_of_kind};

use stat_book::Book;
use stat_defs::{Kind, List, MetricId, NoMemory};
use std::alloc::Global;

/// The counters and the gauges of a book that are not gone, each rising.
#[derive(Drop)]
pub struct Listing {
    /// The number of entries in the log that was found.
    pub at: u64,
    pub counters: List<MetricId>,
    pub gauges: List<MetricId>,
}

/// The listing of a book. It takes time in the metrics that are not gone.
pub fn listing_of(alloc: Global, book: &Book) -> Result<Listing, NoMemory>
    ensures lists { IfOk result (λ listing. Lists listing book.now) }
    ensures legal { IsLegal book.now }
{
    let at = book.log().len() as u64;
    let names = book.names(alloc)?;
    let counters = of_kind(alloc, book, Kind::Counter, &names)?;
    let gauges = of_kind(alloc, book, Kind::Gauge, &names)?;
    Ok(Listing {
        at,
        counters: List::of(counters),
        gauges: List::of(gauges),
    })
}

// Those of these metrics that are of the kind.
pub(crate) fn of_kind(
    alloc: Global,
    book: &Book,
    kind: Kind,
    ids: &[MetricId],
) -> Result<Vec<MetricId>, NoMemory>
    requires { All (λ id. id.0 < length (state_of book.now).metrics) ids.now }
    ensures { IfOk result (λ those. those.items ≡ filter (is_of_kind kind (state_of book.now)) ids.now) }
{
    let mut those = Vec::new(alloc);
    for id in ids {
        if is_kind(book, kind, *id) {
            those.push(*id)?;
        }
    }
    Ok(those)
}

fn is_kind(book: &Book, kind: Kind, id: MetricId) -> bool
    requires { id.0 < length (state_of book.now).metrics }
    ensures { result ≡ is_of_kind kind (state_of book.now) id }
{
    book.metric(id).kind == kind
}
