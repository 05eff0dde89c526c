//! The end of a counter bank.
ghost use Rattle.std.specs.Prelude.{◌≡◌, ℕ, ◌+◌, ◌*◌, ◌≤◌, [], length, IfOk, vec_capacity};
ghost use Rattle.std.specs.Mem.Slots.{slots_items, slots_len, IsFull};
ghost use Rattle.seat_parts.specs.Parts.{total};
ghost use Rattle.metric_words.specs.Counters.{own_steps};
ghost use Rattle.metric_words.specs.declared.counter_view.CountPart.{CountPart};
ghost use Rattle.metric_words.specs.CounterLedger.{bank_id, size_of, workers_of, read_steps, AreAll, seats_total, IsLedger};
ghost use Rattle.metric_words.specs.CounterLedger.{HasWords};

use crate::counter_bank::CounterBank;
use crate::counter_seats::{FlushSeat, Place, ReadSeat, WordSeats, WorkerSeat};
use crate::limits::LINE_WORDS;
use atomic_table::Closed;
use seat_parts::Merge;
use stat_defs::{NoMemory, Words};
use std::alloc::Global;

/// The last words of a counter bank, by counter.
#[derive(Drop)]
pub struct CounterClose {
    pub values: Words,
    pub pending: Words,
}

impl CounterBank {
    /// The words once all seats are back. The memory is taken first; where it is refused, bank and seats are gone.
    pub fn close(self, alloc: Global, seats: WordSeats) -> Result<CounterClose, NoMemory>
        requires { AreAll (bank_id self) (workers_of self) seats }
        ensures { IfOk result (λ r. IsLedger (size_of self) (workers_of self) seats r.values r.pending) }
    {
        let size = self.table.word_count() / LINE_WORDS;
        let mut values = Vec::with_capacity(alloc, size)?;
        let mut pending = Vec::with_capacity(alloc, size)?;
        let all = self.gather(seats);
        let CounterBank { table } = self;
        let closed = table.close_with(all);
        read_out(&closed, size, &mut values, &mut pending);
        closed.free();
        Ok(CounterClose {
            values: Words::of(values),
            pending: Words::of(pending),
        })
    }

    // One seat that keeps the parts of all, the reader's own first.
    fn gather(&self, seats: WordSeats) -> Place
        requires { AreAll (bank_id self.now) (workers_of self.now) seats }
        ensures seat { (result.table_id ≡ bank_id self.now) × (length result.me.1 ≡ 0) }
        ensures totals { (f : CountPart → ℕ) → total f result.me.0.parts ≡ seats_total f seats }
        ensures reader { own_steps result.me.0 ≡ read_steps seats }
    {
        let WordSeats {
            workers,
            flusher,
            reader,
        } = seats;
        let ReadSeat { seat: mut all } = reader;
        let FlushSeat { seat: flushed } = flusher;
        self.table.shared.join_seat::<Merge>(&mut all, flushed);
        let mut workers = workers;
        while let Some(worker) = workers.pop() {
            let WorkerSeat { seat } = worker;
            self.table.shared.join_seat::<Merge>(&mut all, seat);
        }
        all
    }
}

fn read_out(closed: &Closed<(), Global>, size: usize, values: &mut Vec<u64>, pending: &mut Vec<u64>)
    requires words { IsFull closed.now.words × (slots_len closed.now.words ≡ 8 * size) }
    requires room { (values.old.items ≡ []) × (pending.old.items ≡ []) × (size ≤ vec_capacity values.old)
        × (size ≤ vec_capacity pending.old) }
    ensures { HasWords size (slots_items closed.now.words) values.new.items pending.new.items }
{
    for id in 0..size {
        values.push_reserved(closed.word(LINE_WORDS * id));
        pending.push_reserved(closed.word(LINE_WORDS * id + 1));
    }
}
