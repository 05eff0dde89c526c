//! The book of a report's log, carried on entry by entry.
ghost use Rattle.std.specs.Prelude.{◌≡◌, OnOk, fold};
ghost use Rattle.book_state.specs.SeatLaws.{is_end};
ghost use Rattle.book_state.specs.Stored.{after_entry};
ghost use Rattle.flush_view.specs.Replaying.{AreNext};
ghost use Rattle.flush_view.specs.Views.{ends_in};

use book_state::BookState;
use stat_defs::{Call, Entry, NoMemory};
use std::alloc::Global;

/// Applies entries one after another.
pub fn apply_all(alloc: Global, book: &mut BookState, entries: &[Entry]) -> Result<(), NoMemory>
    requires { AreNext book.old entries.now }
    ensures { OnOk result (book.new ≡ fold after_entry book.old entries.now) }
{
    for entry in entries {
        book.apply(alloc, entry)?;
    }
    Ok(())
}

fn is_end(entry: &Entry) -> bool
    ensures { result ≡ is_end entry.now.call }
{
    matches!(entry.call, Call::End)
}

/// How many workers have an end in a log.
pub(crate) fn ends_in(log: &[Entry]) -> usize
    ensures { result ≡ ends_in log.now }
{
    let mut ends = 0;
    for entry in log {
        if is_end(entry) {
            ends += 1;
        }
    }
    ends
}
