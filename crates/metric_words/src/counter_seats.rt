//! The seats of a counter bank. Each is used by one party at a time, and has the list of its steps, which contracts
//! alone see.
ghost use Rattle.std.specs.Prelude.{◌≡◌, ◌<◌, ℕ, length};
ghost use Rattle.seat_parts.specs.Parts.{total};
ghost use Rattle.metric_words.specs.Counters.{own_part, own_steps, taken_parts, firsts, seconds, latches};
ghost use Rattle.metric_words.specs.Counters.{worker_weight, flusher_weight, reader_weight};

use crate::counter_view::CountView;
use atomic_table::Seat;

pub(crate) type Place = Seat<(), CountView>;

/// A worker's seat, which adds. Between its calls it has made both steps of each add.
#[derive(Drop)]
pub struct WorkerSeat {
    pub(crate) seat: Place,
    ghost alone: { (length seat.me.0.parts ≡ 1) × (length seat.me.1 ≡ 0) },
    ghost role: { worker_weight (own_part seat.me.0).role ≡ 1 },
    ghost kinds: { (id : ℕ) → latches id (own_steps seat.me.0) ≡ 0 },
    ghost even: { (id : ℕ) → firsts id (own_steps seat.me.0) ≡ seconds id (own_steps seat.me.0) },
}

/// The flusher's seat, which latches. It may take in workers' seats.
#[derive(Drop)]
pub struct FlushSeat {
    pub(crate) seat: Place,
    ghost leads: { (0 < length seat.me.0.parts) × (length seat.me.1 ≡ 0) },
    ghost role: { flusher_weight (own_part seat.me.0).role ≡ 1 },
    ghost others: { total (λ p. worker_weight p.role) (taken_parts seat.me.0) ≡ length (taken_parts seat.me.0) },
    ghost kinds: { (id : ℕ) → (firsts id (own_steps seat.me.0) ≡ 0) × (seconds id (own_steps seat.me.0) ≡ 0)
        × (total (λ p. latches id p.steps) (taken_parts seat.me.0) ≡ 0) },
    ghost even: { (id : ℕ) → total (λ p. firsts id p.steps) (taken_parts seat.me.0) ≡
        total (λ p. seconds id p.steps) (taken_parts seat.me.0) },
}

/// The reader's seat, which loads.
#[derive(Drop)]
pub struct ReadSeat {
    pub(crate) seat: Place,
    ghost alone: { (length seat.me.0.parts ≡ 1) × (length seat.me.1 ≡ 0) },
    ghost role: { reader_weight (own_part seat.me.0).role ≡ 1 },
    ghost kinds: { (id : ℕ) → (firsts id (own_steps seat.me.0) ≡ 0) × (seconds id (own_steps seat.me.0) ≡ 0)
        × (latches id (own_steps seat.me.0) ≡ 0) },
}

/// All seats of a bank: one for each worker, in the order of their numbers, one for the flusher, and one for the
/// reader.
#[derive(Drop)]
pub struct WordSeats {
    pub workers: Vec<WorkerSeat>,
    pub flusher: FlushSeat,
    pub reader: ReadSeat,
}
