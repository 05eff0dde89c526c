//! How a store is opened.
ghost use Rattle.std.specs.Prelude.{◌≡◌, [], ◌<◌, ◌≤◌, length, All, IfOk, vec_capacity};
ghost use Rattle.stat_defs.specs.Configs.{IsConfig};
ghost use Rattle.book_state.specs.declared.limits.TheConstants.{MAX_WORKERS};
ghost use Rattle.locked_book.specs.Sharing.{known_by};
ghost use Rattle.metric_words.specs.CounterLedger.{flush_known};
ghost use Rattle.metric_words.specs.GaugeLedger.{gauge_known};
ghost use Rattle.flush_cells.specs.declared.tokens.TheConstants.{MAX_CELLS};
ghost use Rattle.flusher.specs.Flusher.{IsNewToken};
ghost use Rattle.store_opening.specs.Made.{IsMade};
ghost use Rattle.store_opening.specs.Dealing.{IsQueued};
ghost use Rattle.store_opening.specs.Opening.{ArePartiesOf, Opens, flusher_of};

use crate::dealing::{Dealing, deal_recorders, next_of};
use crate::making::{Made, make_store};
use admin_side::{Admin, ReadWords};
use flush_cells::{FlushCell, FlushCells};
use flusher::Flusher;
use half_side::HalfSide;
use locked_book::LockedBook;
use metric_words::{FlushSeat, GaugeSeat, WorkerSeat};
use name_map::HashKey;
use recorder::Recorder;
use stat_defs::{Config, NoMemory};
use std::alloc::Global;
use store_parts::Store;
use tag_rules::{Matcher, TagRules};

/// A store that threads share, a recorder for each worker in the order of their numbers from 1, the flusher and the
/// reader.
#[derive(Drop)]
pub struct Opened {
    pub store: Store,
    pub recorders: Vec<Recorder>,
    pub flusher: Flusher,
    pub admin: Admin,
}

// The first seat of the book, and what is dealt to the workers.
fn queued(
    seats: Vec<LockedBook>,
    counts: Vec<WorkerSeat>,
    gauges: Vec<GaugeSeat>,
    sides: Vec<HalfSide>,
) -> (LockedBook, Dealing)
    requires { 0 < length seats.items }
    ensures { IsQueued seats.items counts.items gauges.items sides.items result.0 result.1 }
{
    let mut seats = seats.into_iter();
    let first = next_of(&mut seats);
    let left = Dealing {
        seats,
        counts: counts.into_iter(),
        gauges: gauges.into_iter(),
        sides: sides.into_iter(),
    };
    (first, left)
}

// The flusher of new seats and tokens.
fn new_flusher(
    alloc: Global,
    seat: LockedBook,
    counters: FlushSeat,
    gauges: GaugeSeat,
    tokens: Vec<FlushCell>,
) -> Flusher
    requires seat { (known_by seat).made ≡ [] }
    requires counters { ((flush_known counters).own.steps ≡ []) × ((flush_known counters).taken ≡ []) }
    requires gauges { ((gauge_known gauges).own.steps ≡ []) × ((gauge_known gauges).taken ≡ []) }
    requires tokens { All IsNewToken tokens.items }
    requires few { length tokens.items ≤ MAX_CELLS }
    requires workers { length tokens.items ≡ (known_by seat).workers }
    requires sized { ((flush_known counters).own.workers ≡ length tokens.items)
        × ((gauge_known gauges).own.workers ≡ length tokens.items) }
    ensures { result ≡ flusher_of seat counters gauges tokens.items }
{
    Flusher::new(seat, counters, gauges, FlushCells::new(alloc, tokens))
}

// Deals a new store to its parties. There is room for the recorders.
fn deal(alloc: Global, key: HashKey, made: Made, mut recorders: Vec<Recorder>) -> Opened
    requires made { IsMade made }
    requires room { (recorders.items ≡ []) × (length made.store.cells.items ≤ vec_capacity recorders) }
    ensures store { result.store ≡ made.store }
    ensures parties { ArePartiesOf result }
{
    let Made {
        store,
        seats,
        counts,
        levels,
        sides,
        tokens,
    } = made;
    let (first, mut left) = queued(seats, counts.workers, levels.workers, sides);
    deal_recorders(alloc, key, &store, &mut left, &mut recorders);
    let last = next_of(&mut left.seats);
    let words = ReadWords {
        counters: counts.reader,
        gauges: levels.reader,
    };
    Opened {
        store,
        recorders,
        flusher: new_flusher(alloc, first, counts.flusher, levels.flusher, tokens),
        admin: Admin::new(alloc, last, words),
    }
}

/// Opens a store for so many workers, whose book has the scopes of the configuration. The rules and the matcher are
/// those that were built from it. All tables of names are hashed under the key. Nothing waits.
pub fn open_store(
    alloc: Global,
    key: HashKey,
    config: &Config,
    rules: TagRules,
    matcher: Matcher,
    workers: u32,
) -> Result<Opened, NoMemory>
    requires config { IsConfig config.now }
    requires rules { rules ≡ config.now.tags }
    requires matcher { matcher ≡ config.now.matcher }
    requires workers { (1 ≤ workers) × (workers ≤ MAX_WORKERS) }
    ensures { IfOk result (Opens config.now workers) }
{
    let recorders = Vec::with_capacity(alloc, workers as usize)?;
    let made = make_store(alloc, key, config, rules, matcher, workers)?;
    Ok(deal(alloc, key, made, recorders))
}
