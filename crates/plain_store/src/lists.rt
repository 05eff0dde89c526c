//! The metrics that a flush shows.
ghost use Rattle.std.specs.Prelude.{◌≡◌, ◌<◌, ℕ, All, IfOk, map, filter, length};
ghost use Rattle.std.specs.List.{range_with_len};
ghost use Rattle.stat_book.specs.Calls.{state_of};
ghost use Rattle.plain_store.specs.Sums.{is_of_kind, as_id};

use crate::worker::LoneWorker;
use stat_defs::{Kind, MetricId, NoMemory};
use std::alloc::Global;

/// The numbers of all metrics that were made, rising.
pub(crate) fn all_made(alloc: Global, worker: &LoneWorker) -> Result<Vec<MetricId>, NoMemory>
    ensures { IfOk result (λ ids. ids.items
        ≡ map as_id (range_with_len 0 (length (state_of worker.now.book).metrics))) }
{
    let made = worker.made();
    Ok((0..made).map(MetricId).collect(alloc)?)
}

/// Those of these metrics that are of the kind.
pub(crate) fn of_kind(
    alloc: Global,
    worker: &LoneWorker,
    kind: Kind,
    ids: &[MetricId],
) -> Result<Vec<MetricId>, NoMemory>
    requires { All (λ id. id.0 < length (state_of worker.now.book).metrics) ids.now }
    ensures { IfOk result (λ those. those.items ≡ filter (is_of_kind kind (state_of worker.now.book)) ids.now) }
{
    let mut those = Vec::new(alloc);
    for id in ids {
        if is_kind(worker, kind, *id) {
            those.push(*id)?;
        }
    }
    Ok(those)
}

// Whether a metric is of the kind.
fn is_kind(worker: &LoneWorker, kind: Kind, id: MetricId) -> bool
    requires { id.0 < length (state_of worker.now.book).metrics }
    ensures { result ≡ is_of_kind kind (state_of worker.now.book) id }
{
    worker.kind(id) == kind
}
