//! What is known of metrics before the sweep of a flush.
ghost use Rattle.std.specs.Prelude.{◌≡◌, IfOk};
ghost use Rattle.flush_view.specs.Before.{left_of, before_of, is_left, text_in, text_left};

use book_state::BookState;
use stat_defs::{Life, List, Metric, MetricId, NoMemory, Txt};
use std::alloc::Global;

/// Of each metric that was made before a sweep, by its number: the text that it held, or nothing where it was gone.
pub type Before = List<Option<Txt>>;

fn left_of(metric: &Metric) -> Result<Option<Txt>, NoMemory>
    ensures { IfOk result (λ left. left ≡ left_of metric.now) }
{
    match metric.life {
        Life::Gone => Ok(None),
        _ => Ok(Some(metric.text.clone()?)),
    }
}

/// What is known of the metrics of a book.
pub fn before_of(alloc: Global, book: &BookState) -> Result<Before, NoMemory>
    ensures { IfOk result (λ before. before ≡ before_of book.now.state) }
{
    let made = book.made();
    let mut lefts = Vec::with_capacity(alloc, made as usize)?;
    for id in 0..made {
        lefts.push(left_of(book.metric(MetricId(id)))?)?;
    }
    Ok(List::of(lefts))
}

/// Whether the metric of this number was made and was not gone.
pub(crate) fn is_left(before: &[Option<Txt>], id: usize) -> bool
    ensures { result ≡ is_left before.now id }
{
    if id >= before.len() {
        return false;
    }
    before[id].is_some()
}

fn copy_of_text(alloc: Global, left: &Option<Txt>) -> Result<Txt, NoMemory>
    ensures { IfOk result (λ text. text ≡ text_in left.now) }
{
    match left {
        Some(text) => Ok(text.clone()?),
        None => Txt::of(alloc, b""),
    }
}

/// The text that the metric of this number held.
pub(crate) fn text_left(alloc: Global, before: &[Option<Txt>], id: usize) -> Result<Txt, NoMemory>
    ensures { IfOk result (λ text. text ≡ text_left before.now id) }
{
    if id >= before.len() {
        return Txt::of(alloc, b"");
    }
    copy_of_text(alloc, &before[id])
}
