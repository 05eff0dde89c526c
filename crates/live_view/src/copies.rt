//! Copies of a book's metrics, which go on in the book.
ghost use Rattle.std.specs.Prelude.{◌≡◌, IfOk};
ghost use Rattle.book_state.specs.State.{metrics_of};

use book_state::BookState;
use flush_view::copies::copy_of_tagged;
use stat_defs::{Metric, MetricId, NoMemory};
use std::alloc::Global;

fn copy_of_metric(metric: &Metric) -> Result<Metric, NoMemory>
    ensures { IfOk result (λ copy. copy ≡ metric.now) }
{
    Ok(Metric {
        name: metric.name.clone()?,
        kind: metric.kind,
        mode: metric.mode,
        numbers: metric.numbers.clone()?,
        tagged: copy_of_tagged(&metric.tagged)?,
        text: metric.text.clone()?,
        life: metric.life,
    })
}

/// The metrics that were made, by their numbers.
pub(crate) fn copy_of_metrics(alloc: Global, book: &BookState) -> Result<Vec<Metric>, NoMemory>
    ensures { IfOk result (λ metrics. metrics.items ≡ metrics_of book.now.state) }
{
    let made = book.made();
    let mut metrics = Vec::with_capacity(alloc, made as usize)?;
    for id in 0..made {
        metrics.push(copy_of_metric(book.metric(MetricId(id)))?)?;
    }
    Ok(metrics)
}
