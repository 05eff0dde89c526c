//! The book of a new store.
ghost use Rattle.std.specs.Prelude.{◌≡◌, ◌+◌, ◌≤◌, IfOk};
ghost use Rattle.stat_defs.specs.Configs.{IsConfig};
ghost use Rattle.book_state.specs.declared.limits.TheConstants.{MAX_WORKERS};
ghost use Rattle.stat_book.specs.Calls.{new_book};
ghost use Rattle.locked_book.specs.Sharing.{first_of};
ghost use Rattle.store_opening.specs.Made.{IsBookDeal};

use locked_book::{LockedBook, SharedBook};
use name_map::HashKey;
use stat_book::Book;
use stat_defs::{Config, NoMemory};
use std::alloc::Global;
use tag_rules::{Matcher, TagRules};

/// A book behind its lock, and its seats in the order of their numbers: the store's, the workers' and the reader's.
#[derive(Drop)]
pub(crate) struct BookDeal {
    pub(crate) book: SharedBook,
    pub(crate) seats: Vec<LockedBook>,
}

// The book of a configuration.
pub(crate) fn make_book(
    alloc: Global,
    key: HashKey,
    config: &Config,
    rules: TagRules,
    matcher: Matcher,
    workers: u32,
) -> Result<BookDeal, NoMemory>
    requires config { IsConfig config.now }
    requires rules { rules ≡ config.now.tags }
    requires matcher { matcher ≡ config.now.matcher }
    requires workers { (1 ≤ workers) × (workers ≤ MAX_WORKERS) }
    ensures book { IfOk result (λ deal. first_of deal.book ≡ new_book config.now workers) }
    ensures seats { IfOk result (IsBookDeal workers) }
{
    let book = Book::with_key(alloc, key, config, rules, matcher, workers)?;
    book.has_legal_log();
    let (book, seats) = SharedBook::new(alloc, book, workers + 2)?;
    Ok(BookDeal { book, seats })
}
