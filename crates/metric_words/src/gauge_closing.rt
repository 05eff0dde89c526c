//! The end of a gauge bank.
ghost use Rattle.std.specs.Prelude.{◌≡◌, ◌*◌, ◌≤◌, [], ◌++◌, length, flat_map, IfOk, vec_capacity};
ghost use Rattle.std.specs.Mem.Slots.{slots_items, slots_len, IsFull};
ghost use Rattle.metric_words.specs.GaugeLedger.{gauges_id, gauges_size, gauges_workers, AreAllGauges};
ghost use Rattle.metric_words.specs.GaugeLedger.{gauge_all, gauge_parts, IsGaugeLedger, SameWords};

use crate::gauge_bank::{GaugeBank, GaugePlace};
use crate::gauge_seats::{GaugeSeat, GaugeSeats};
use crate::limits::LINE_WORDS;
use atomic_table::Closed;
use seat_parts::Merge;
use stat_defs::{NoMemory, Words};
use std::alloc::Global;

impl GaugeBank {
    /// The words once all seats are back, by gauge. The memory is taken first; where it is refused, bank and seats are
    /// gone.
    pub fn close(self, alloc: Global, seats: GaugeSeats) -> Result<Words, NoMemory>
        requires { AreAllGauges (gauges_id self) (gauges_workers self) seats }
        ensures { IfOk result (λ r. IsGaugeLedger (gauges_size self) (gauge_parts seats) r) }
    {
        let size = self.table.word_count() / LINE_WORDS;
        let mut words = Vec::with_capacity(alloc, size)?;
        let all = self.gather(seats);
        let GaugeBank { table } = self;
        let closed = table.close_with(all);
        read_words(&closed, size, &mut words);
        closed.free();
        Ok(Words::of(words))
    }

    // One seat that keeps the parts of all.
    fn gather(&self, seats: GaugeSeats) -> GaugePlace
        requires { AreAllGauges (gauges_id self.now) (gauges_workers self.now) seats }
        ensures seat { (result.table_id ≡ gauges_id self.now) × (length result.me.1 ≡ 0) }
        ensures parts { result.me.0.parts ≡ gauge_all seats.flusher
            ++ (flat_map gauge_all seats.workers.items ++ gauge_all seats.reader) }
    {
        let GaugeSeats {
            workers,
            flusher,
            reader,
        } = seats;
        let GaugeSeat { seat: mut all } = reader;
        let mut workers = workers;
        while let Some(worker) = workers.pop() {
            let GaugeSeat { seat: mut first } = worker;
            self.table.shared.join_seat::<Merge>(&mut first, all);
            all = first;
        }
        let GaugeSeat { seat: mut first } = flusher;
        self.table.shared.join_seat::<Merge>(&mut first, all);
        first
    }
}

fn read_words(closed: &Closed<(), Global>, size: usize, words: &mut Vec<u64>)
    requires words { IsFull closed.now.words × (slots_len closed.now.words ≡ 8 * size) }
    requires room { (words.old.items ≡ []) × (size ≤ vec_capacity words.old) }
    ensures { SameWords size (slots_items closed.now.words) words.new.items }
{
    for id in 0..size {
        words.push_reserved(closed.word(LINE_WORDS * id));
    }
}
