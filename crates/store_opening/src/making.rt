//! The parts of a new store.
ghost use Rattle.std.specs.Prelude.{◌≡◌, ◌+◌, ◌≤◌, length, IfOk};
ghost use Rattle.stat_defs.specs.Configs.{IsConfig};
ghost use Rattle.book_state.specs.declared.limits.TheConstants.{MAX_WORKERS};
ghost use Rattle.stat_book.specs.Calls.{new_book};
ghost use Rattle.locked_book.specs.Sharing.{first_of};
ghost use Rattle.store_opening.specs.Made.{IsMade, ArePartsFor};

use crate::book::{BookDeal, make_book};
use crate::cells::{CellDeal, deal_cells};
use crate::words::{Words, make_words};
use flush_cells::FlushCell;
use half_side::HalfSide;
use locked_book::LockedBook;
use metric_words::{GaugeSeats, WordSeats};
use name_map::HashKey;
use stat_defs::{Config, NoMemory};
use std::alloc::Global;
use store_parts::Store;
use tag_rules::{Matcher, TagRules};

/// A new store, and all seats and tokens of its book, words and cells.
#[derive(Drop)]
pub(crate) struct Made {
    pub(crate) store: Store,
    pub(crate) seats: Vec<LockedBook>,
    pub(crate) counts: WordSeats,
    pub(crate) levels: GaugeSeats,
    pub(crate) sides: Vec<HalfSide>,
    pub(crate) tokens: Vec<FlushCell>,
}

// The store of these parts.
fn put_together(book: BookDeal, words: Words, cells: CellDeal) -> Made
    requires { ArePartsFor (first_of book.book) book words cells }
    ensures book { first_of result.store.book ≡ first_of book.book }
    ensures made { IsMade result }
{
    let BookDeal { book, seats } = book;
    let Words {
        counters,
        counts,
        gauges,
        levels,
    } = words;
    let CellDeal {
        cells,
        sides,
        tokens,
    } = cells;
    Made {
        store: Store {
            book,
            counters,
            gauges,
            cells,
        },
        seats,
        counts,
        levels,
        sides,
        tokens,
    }
}

// A store for so many workers.
pub(crate) fn make_store(
    alloc: Global,
    key: HashKey,
    config: &Config,
    rules: TagRules,
    matcher: Matcher,
    workers: u32,
) -> Result<Made, NoMemory>
    requires config { IsConfig config.now }
    requires rules { rules ≡ config.now.tags }
    requires matcher { matcher ≡ config.now.matcher }
    requires workers { (1 ≤ workers) × (workers ≤ MAX_WORKERS) }
    ensures book { IfOk result (λ made. first_of made.store.book ≡ new_book config.now workers) }
    ensures made { IfOk result IsMade }
{
    let book = make_book(alloc, key, config, rules, matcher, workers)?;
    let Ok(words) = make_words(alloc, workers) else {
        drop(book);
        return Err(NoMemory);
    };
    let Ok(cells) = deal_cells(alloc, workers) else {
        drop(book);
        drop(words);
        return Err(NoMemory);
    };
    Ok(put_together(book, words, cells))
}
