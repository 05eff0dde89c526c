//! The scopes and metrics of a store: what a book may reply to each call, and what the log of these replies comes to.
#![tactic(auto)]

mod laws;
mod limits;
mod metrics;
mod names;
mod numbers;
mod scopes;
mod seats;
mod state;
mod tables;
mod worked;

pub use laws::{
    a_chain_grows, a_legal_log_is_safe, a_log_grows, a_seat_holds_what_it_found, a_seat_may_call,
    a_seat_stands_at_its_last_entry, a_seat_stays, metrics_stay, others_leave_a_seat,
    own_calls_change_a_seat, own_entries_grow, seats_of_a_legal_log,
};
pub use limits::{MAX_HISTOGRAMS, MAX_METRICS, MAX_OPENINGS, MAX_TOKENS, MAX_WORKERS};
pub use state::{BookState, StateParts, numbers_of};
pub use tables::NameKey;
pub use worked::{
    gone_in_the_last_sweep, retired_and_found_again, safe_and_not, shared_symbols, sweep_waits,
};
