//! The steps of a counter bank. None takes memory, waits or refuses.
ghost use Rattle.std.specs.Prelude.{◌≡◌, ℕ, ◌+◌, ◌<◌, ◌≤◌, ◌∷◌, []};
ghost use Rattle.metric_words.specs.declared.limits.TheConstants.{MAX_UNITS};
ghost use Rattle.metric_words.specs.declared.counter_view.CountKind.TheVariants.{First, Second, Latch, Load};
ghost use Rattle.metric_words.specs.Counters.{step_of, firsts, Rises};
ghost use Rattle.metric_words.specs.Known.{with_parts};
ghost use Rattle.metric_words.specs.CounterLedger.{bank_id, size_of, worker_known, flush_known, read_known};
ghost use Rattle.metric_words.specs.CounterLedger.{worker_part, after_step, LatchedAll};

use crate::counter_bank::CounterBank;
use crate::counter_plays::{AddFirst, AddSecond, Latching, Loading};
use crate::counter_seats::{FlushSeat, ReadSeat, WorkerSeat};
use crate::limits::LINE_WORDS;
use seat_parts::Merge;
use stat_defs::MetricId;

impl CounterBank {
    /// Adds `n` units: one atomic add to the counter's value, and then one to what of it is pending, where the units
    /// count as accepted. The two words found are told as numbers that some moment had.
    #[inline(always)]
    pub fn add(&self, seat: &mut WorkerSeat, id: MetricId, n: u32)
        requires bank { (worker_known seat.old).bank ≡ bank_id self.now }
        requires id { id.0 < size_of self.now }
        requires units { firsts id.0 (worker_known seat.old).own.steps + n ≤ MAX_UNITS }
        ensures { (x y : ℕ) × (worker_known seat.new
            ≡ after_step (step_of Second id.0 n y) (after_step (step_of First id.0 n x) (worker_known seat.old))) }
    {
        let word = LINE_WORDS * id.0 as usize;
        let shared = &self.table.shared;
        shared.fetch_add::<AddFirst>(&mut seat.seat, word, n as u64);
        shared.fetch_add::<AddSecond>(&mut seat.seat, word + 1, n as u64);
    }

    /// Takes the units that are pending, by one atomic swap with 0, and gives them.
    /// A latch by a seat that has not taken in all workers tells nothing of adds that it did not find.
    pub fn latch(&self, seat: &mut FlushSeat, id: MetricId) -> u64
        requires bank { (flush_known seat.old).bank ≡ bank_id self.now }
        requires id { id.0 < size_of self.now }
        ensures known { flush_known seat.new ≡ after_step (step_of Latch id.0 0 result) (flush_known seat.old) }
        ensures whole { LatchedAll id.0 (flush_known seat.new) }
    {
        let word = LINE_WORDS * id.0 as usize + 1;
        self.table.shared.swap::<Latching>(&mut seat.seat, word, 0)
    }

    /// Reads the counter's value by one atomic load. It may be ahead of the latched and pending units by adds that are
    /// under way.
    pub fn value(&self, seat: &mut ReadSeat, id: MetricId) -> u64
        requires bank { (read_known seat.old).bank ≡ bank_id self.now }
        requires id { id.0 < size_of self.now }
        ensures known { read_known seat.new ≡ after_step (step_of Load id.0 0 result) (read_known seat.old) }
        // no earlier load of the counter found more
        ensures rises { Rises id.0 (read_known seat.old).own.steps result }
    {
        let word = LINE_WORDS * id.0 as usize;
        self.table.shared.load::<Loading>(&mut seat.seat, word)
    }

    /// Joins a worker's seat into the flusher's, which keeps its list under its number.
    pub fn take_in(&self, flush: &mut FlushSeat, worker: WorkerSeat)
        requires flush { (flush_known flush.old).bank ≡ bank_id self.now }
        requires worker { (worker_known worker).bank ≡ bank_id self.now }
        ensures { flush_known flush.new ≡ with_parts (worker_part worker ∷ []) (flush_known flush.old) }
    {
        let WorkerSeat { seat } = worker;
        self.table.shared.join_seat::<Merge>(&mut flush.seat, seat);
    }
}
