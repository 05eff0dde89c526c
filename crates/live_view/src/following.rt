//! A book that is carried on with its log.
ghost use Rattle.std.specs.Prelude.{◌≡◌, ◌≤◌, IfOk, OnOk, length, fold, take};
ghost use Rattle.book_state.specs.Stored.{after_entry};
ghost use Rattle.flush_view.specs.Before.{before_of};
ghost use Rattle.flush_view.specs.Replaying.{AreNext};

use book_state::BookState;
use flush_view::before::{Before, before_of};
use flush_view::replaying::apply_all;
use stat_defs::{Entry, NoMemory};
use std::alloc::Global;

/// Carries a book on by entries, and tells what is known before the one at a place.
pub(crate) fn carry_on(
    alloc: Global,
    book: &mut BookState,
    entries: &[Entry],
    place: usize,
) -> Result<Before, NoMemory>
    requires next { AreNext book.old entries.now }
    requires within { place ≤ length entries.now }
    ensures before { IfOk result (λ before. before
        ≡ before_of (fold after_entry book.old (take place entries.now)).state) }
    ensures book { OnOk result (book.new ≡ fold after_entry book.old entries.now) }
{
    apply_all(alloc, book, &entries[..place])?;
    let before = before_of(alloc, book)?;
    apply_all(alloc, book, &entries[place..])?;
    Ok(before)
}
