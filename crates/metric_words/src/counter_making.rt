//! How a counter bank is made.
ghost use Rattle.std.specs.Prelude.{◌≡◌, ◌+◌, ◌<◌, ◌≤◌, IfOk};
ghost use Rattle.metric_words.specs.Counters.{bank_view};
ghost use Rattle.metric_words.specs.declared.limits.TheConstants.{MAX_SIZE, MAX_WORKERS};
ghost use Rattle.metric_words.specs.CounterLedger.{bank_id, size_of, workers_of, AreNew};
ghost use Rattle.std.specs.Prelude.{[]};

use crate::counter_bank::CounterBank;
use crate::counter_seats::{FlushSeat, Place, ReadSeat, WordSeats, WorkerSeat};
use crate::counter_view::BankKey;
use crate::limits::{LINE_WORDS, MAX_SIZE, MAX_WORKERS};
use atomic_table::Table;
use seat_parts::Deal;
use stat_defs::NoMemory;
use std::alloc::Global;

impl CounterBank {
    /// A bank of `size` counters at 0, for so many workers, with its seats.
    pub fn new(alloc: Global, workers: u32, size: u32) -> Result<(CounterBank, WordSeats), NoMemory>
        requires workers { (0 < workers) × (workers ≤ MAX_WORKERS) }
        requires size { (0 < size) × (size ≤ MAX_SIZE) }
        ensures bank { IfOk result (λ r. (size_of r.0 ≡ size) × (workers_of r.0 ≡ workers)) }
        ensures seats { IfOk result (λ r. AreNew (bank_id r.0) workers r.1) }
    {
        let words = vec![in alloc; 0u64; LINE_WORDS * size as usize]?;
        let key = BankKey {
            workers: workers as u64,
            size: size as u64,
        };
        let (table, seat) = Table::of_words(alloc, words.as_slice(), &key)?;
        let bank = CounterBank { table };
        let seats = bank.deal(alloc, seat, workers)?;
        Ok((bank, seats))
    }

    // The first seat has all parts, and each other seat is cut off it.
    fn deal(&self, alloc: Global, mut seat: Place, workers: u32) -> Result<WordSeats, NoMemory>
        requires bank { (seat.table_id ≡ bank_id self.now) × (workers ≤ MAX_WORKERS) }
        requires seat { seat.me ≡ (bank_view self.now.table.shared.key, []) }
        requires key { self.now.table.shared.key.workers ≡ workers }
        ensures { IfOk result (λ r. AreNew (bank_id self.now) workers r) }
    {
        let flusher = FlushSeat {
            seat: self.table.shared.split_seat::<Deal>(&mut seat),
        };
        let mut list = Vec::with_capacity(alloc, workers as usize)?;
        for _ in 0..workers {
            let worker = self.table.shared.split_seat::<Deal>(&mut seat);
            list.push(WorkerSeat { seat: worker })?;
        }
        Ok(WordSeats {
            workers: list,
            flusher,
            reader: ReadSeat { seat },
        })
    }
}
