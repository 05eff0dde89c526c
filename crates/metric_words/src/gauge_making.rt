//! How a gauge bank is made.
ghost use Rattle.std.specs.Prelude.{◌≡◌, ◌<◌, ◌≤◌, [], IfOk};
ghost use Rattle.metric_words.specs.Gauges.{gauge_view};
ghost use Rattle.metric_words.specs.declared.limits.TheConstants.{MAX_SIZE, MAX_WORKERS};
ghost use Rattle.metric_words.specs.GaugeLedger.{gauges_id, gauges_size, gauges_workers, AreNewGauges};

use crate::gauge_bank::{GaugeBank, GaugePlace};
use crate::gauge_seats::{GaugeSeat, GaugeSeats};
use crate::gauge_view::GaugeKey;
use crate::limits::{LINE_WORDS, MAX_SIZE, MAX_WORKERS};
use atomic_table::Table;
use seat_parts::Deal;
use stat_defs::NoMemory;
use std::alloc::Global;

impl GaugeBank {
    /// A bank of `size` gauges at 0, for so many workers, with its seats.
    pub fn new(alloc: Global, workers: u32, size: u32) -> Result<(GaugeBank, GaugeSeats), NoMemory>
        requires workers { (0 < workers) × (workers ≤ MAX_WORKERS) }
        requires size { (0 < size) × (size ≤ MAX_SIZE) }
        ensures bank { IfOk result (λ r. (gauges_size r.0 ≡ size) × (gauges_workers r.0 ≡ workers)) }
        ensures seats { IfOk result (λ r. AreNewGauges (gauges_id r.0) workers r.1) }
    {
        let words = vec![in alloc; 0u64; LINE_WORDS * size as usize]?;
        let key = GaugeKey {
            workers: workers as u64,
            size: size as u64,
        };
        let (table, seat) = Table::of_words(alloc, words.as_slice(), &key)?;
        let bank = GaugeBank { table };
        let seats = bank.deal(alloc, seat, workers)?;
        Ok((bank, seats))
    }

    // The first seat has all parts, and each other seat is cut off it.
    fn deal(
        &self,
        alloc: Global,
        mut seat: GaugePlace,
        workers: u32,
    ) -> Result<GaugeSeats, NoMemory>
        requires bank { (seat.table_id ≡ gauges_id self.now) × (workers ≤ MAX_WORKERS) }
        requires seat { seat.me ≡ (gauge_view self.now.table.shared.key, []) }
        requires key { self.now.table.shared.key.workers ≡ workers }
        ensures { IfOk result (λ r. AreNewGauges (gauges_id self.now) workers r) }
    {
        let flusher = GaugeSeat {
            seat: self.table.shared.split_seat::<Deal>(&mut seat),
        };
        let mut list = Vec::with_capacity(alloc, workers as usize)?;
        for _ in 0..workers {
            let worker = self.table.shared.split_seat::<Deal>(&mut seat);
            list.push(GaugeSeat { seat: worker })?;
        }
        Ok(GaugeSeats {
            workers: list,
            flusher,
            reader: GaugeSeat { seat },
        })
    }
}
