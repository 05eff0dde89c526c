//! How the parts of a new store are dealt to its workers.
ghost use Rattle.std.specs.Prelude.{◌≡◌, ◌∷◌, [], ◌+◌, ◌<◌, ◌≤◌, length, vec_capacity};
ghost use Rattle.std.specs.Vec.Iter.{into_iter_items};
ghost use Rattle.book_state.specs.declared.limits.TheConstants.{MAX_WORKERS};
ghost use Rattle.stat_book.specs.Calls.{IsLegal};
ghost use Rattle.book_seat.specs.SeatKept.{IsNewSeat};
ghost use Rattle.locked_book.specs.Sharing.{first_of, known_by};
ghost use Rattle.metric_words.specs.CounterLedger.{worker_part};
ghost use Rattle.metric_words.specs.GaugeLedger.{gauge_known, gauge_part};
ghost use Rattle.ledger.specs.Lists.{EachNumbered};
ghost use Rattle.recorder.specs.Tied.{IsNewWorker};
ghost use Rattle.store_opening.specs.Dealing.{recorder_of, AreLeft, HasLeft, Deals, HasMore};

use book_seat::BookSeat;
use half_side::HalfSide;
use locked_book::LockedBook;
use metric_words::{GaugeSeat, WorkerSeat};
use name_map::HashKey;
use recorder::Recorder;
use std::alloc::Global;
use std::vec::IntoIter;
use store_parts::Store;

/// A worker's seat of the book, its seats of the words, and its side of its cell.
#[derive(Drop)]
pub(crate) struct WorkerHand {
    pub(crate) seat: LockedBook,
    pub(crate) counts: WorkerSeat,
    pub(crate) gauges: GaugeSeat,
    pub(crate) side: HalfSide,
}

/// What of a store was not dealt yet, in the order of the workers.
#[derive(Drop)]
pub(crate) struct Dealing {
    pub(crate) seats: IntoIter<LockedBook>,
    pub(crate) counts: IntoIter<WorkerSeat>,
    pub(crate) gauges: IntoIter<GaugeSeat>,
    pub(crate) sides: IntoIter<HalfSide>,
}

// The first of those that are left.
pub(crate) fn next_of<T>(items: &mut IntoIter<T>) -> T
    requires { 0 < length (into_iter_items items.old) }
    ensures { into_iter_items items.old ≡ result ∷ into_iter_items items.new }
{
    match items.next() {
        Some(item) => item,
        None => unreachable!(),
    }
}

// What the next worker is dealt.
fn next_hand(left: &mut Dealing) -> WorkerHand
    requires { HasMore left.old }
    ensures { Deals result left.old left.new }
{
    WorkerHand {
        seat: next_of(&mut left.seats),
        counts: next_of(&mut left.counts),
        gauges: next_of(&mut left.gauges),
        side: next_of(&mut left.sides),
    }
}

// The recorder of a worker that has done nothing yet.
fn new_recorder(alloc: Global, key: HashKey, hand: WorkerHand, place: u32) -> Recorder
    requires seat { IsNewSeat (known_by hand.seat) }
    requires counts { (worker_part hand.counts).steps ≡ [] }
    requires gauges { ((gauge_part hand.gauges).steps ≡ []) × ((gauge_known hand.gauges).taken ≡ []) }
    requires side { (hand.side.cell.halves ≡ []) × (hand.side.active.values ≡ []) }
    ensures { result ≡ recorder_of hand place }
{
    let WorkerHand {
        seat,
        counts,
        gauges,
        side,
    } = hand;
    let seat = BookSeat::new(alloc, key, seat);
    Recorder::new(seat, counts, gauges, side, place)
}

// The recorders of all workers, in order. What is left then is the reader's seat.
pub(crate) fn deal_recorders(
    alloc: Global,
    key: HashKey,
    store: &Store,
    left: &mut Dealing,
    recorders: &mut Vec<Recorder>,
)
    requires legal { IsLegal (first_of store.now.book) }
    requires few { length store.now.cells.items ≤ MAX_WORKERS }
    requires left { AreLeft store.now 0 left.old × HasLeft (length store.now.cells.items) left.old }
    requires room { (recorders.old.items ≡ []) × (length store.now.cells.items ≤ vec_capacity recorders.old) }
    ensures each { EachNumbered (IsNewWorker store.now) 1 recorders.new.items }
    ensures count { length recorders.new.items ≡ length store.now.cells.items }
    ensures left { AreLeft store.now (length store.now.cells.items) left.new × HasLeft 0 left.new }
{
    let workers = store.cells.len() as u32;
    for place in 0..workers {
        let hand = next_hand(left);
        recorders.push_reserved(new_recorder(alloc, key, hand, place));
    }
}
