//! Words of metrics that threads share without a lock.
#![tactic(auto)]

mod counter_bank;
mod counter_closing;
mod counter_making;
mod counter_plays;
mod counter_seats;
mod counter_steps;
mod counter_view;
mod gauge_bank;
mod gauge_closing;
mod gauge_making;
mod gauge_plays;
mod gauge_seats;
mod gauge_steps;
mod gauge_view;
mod laws;
mod limits;

pub use counter_bank::CounterBank;
pub use counter_closing::CounterClose;
pub use counter_seats::{FlushSeat, ReadSeat, WordSeats, WorkerSeat};
pub use counter_view::{BankKey, CountKind, CountPart, CountStep, CountView, SeatRole};
pub use gauge_bank::GaugeBank;
pub use gauge_seats::{GaugeSeat, GaugeSeats};
pub use gauge_view::{GaugeKey, GaugeKind, GaugePart, GaugeStep, GaugeView};
pub use laws::{
    counter_sums_grow, gauge_sums_grow, one_counter_at_the_end, one_writer_of_a_gauge,
    the_newest_load_is_the_greatest,
};
pub use limits::{MAX_SIZE, MAX_UNITS, MAX_WORKERS};
