//! How what the workers left is sorted.
ghost use Rattle.std.specs.Prelude.{◌≡◌, ℕ, ◌+◌, ◌^◌, ◌<◌, length, IfOk};
ghost use Rattle.store_closing.specs.Sorting.{IsEmptyFor, HasRoomFor, Puts, Sorts, AreSorted};

use crate::sorted::Sorted;
use cells_end::CellEnd;
use locked_book::LockedBook;
use merge_round::Half;
use metric_words::GaugeSeat;
use recorder::Ended;
use stat_defs::NoMemory;
use std::alloc::Global;
use turn_cell::TurnCell;

impl Sorted {
    // No seats, with room for those of so many workers, and for those of the store and of the reader.
    fn with_room(alloc: Global, workers: usize) -> Result<Sorted, NoMemory>
        requires { workers + 2 < 2 ^ 64 }
        ensures { IfOk result (IsEmptyFor workers) }
    {
        let room = workers + 2;
        Ok(Sorted {
            seats: Vec::with_capacity(alloc, room)?,
            counts: Vec::with_capacity(alloc, room)?,
            gauges: Vec::with_capacity(alloc, room)?,
            ends: Vec::with_capacity(alloc, room)?,
        })
    }

    // What one worker more left, and its cell.
    fn put(&mut self, ended: Ended, cell: TurnCell<Half>)
        requires room { HasRoomFor 1 self.old }
        ensures puts { Puts cell ended self.old self.new }
        ensures room { (more : ℕ) → HasRoomFor (more + 1) self.old → HasRoomFor more self.new }
    {
        let Ended {
            seat,
            counts,
            gauges,
            note,
            half,
            work: _,
        } = ended;
        self.seats.push_reserved(seat.into_access());
        self.counts.push_reserved(counts);
        self.gauges.push_reserved(gauges);
        self.ends.push_reserved(CellEnd { cell, note, half });
    }
}

// What all workers left, with their cells, in order.
fn put_all(sorted: &mut Sorted, ended: Vec<Ended>, cells: Vec<TurnCell<Half>>)
    requires cells { length cells.items ≡ length ended.items }
    requires room { HasRoomFor (length ended.items) sorted.old }
    ensures sorts { Sorts cells.items ended.items sorted.old sorted.new }
    ensures room { (more : ℕ) → HasRoomFor (length ended.items + more) sorted.old → HasRoomFor more sorted.new }
{
    let mut waiting = cells.into_iter();
    for worker in ended {
        let Some(cell) = waiting.next() else {
            unreachable!();
        };
        sorted.put(worker, cell);
    }
}

/// Sorts what the workers left: between the seats of the book are those of the store and of the reader, and behind the
/// workers' seats of the gauges the reader's.
pub(crate) fn sort_left(
    alloc: Global,
    store: LockedBook,
    reader: LockedBook,
    reader_gauges: GaugeSeat,
    ended: Vec<Ended>,
    cells: Vec<TurnCell<Half>>,
) -> Result<Sorted, NoMemory>
    requires few { length ended.items + 2 < 2 ^ 64 }
    requires cells { length cells.items ≡ length ended.items }
    ensures { IfOk result (AreSorted store reader reader_gauges cells.items ended.items) }
{
    let mut sorted = Sorted::with_room(alloc, ended.len())?;
    sorted.seats.push_reserved(store);
    put_all(&mut sorted, ended, cells);
    sorted.seats.push_reserved(reader);
    sorted.gauges.push_reserved(reader_gauges);
    Ok(sorted)
}
