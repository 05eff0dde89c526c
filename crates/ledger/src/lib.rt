//! What a report of the store says: its definition over any number of workers, laws of how it grows, and
//! worked reports.
#![tactic(auto)]

mod laws;
mod worked;

pub use laws::{
    fits_grow, flush_at_sweep, follows_from_openings, names_shown, one_direct, one_reply,
    one_report, one_way, one_worker_accounts, parts_take, scopes_once, segments_grow, units_grow,
    words_grow, work_grows,
};
pub use worked::{
    a_number_passed_over, a_reading_too_high, a_released_scope, a_report_without_an_end,
    a_subtraction, a_unit_lost, an_end_behind_the_last_sweep, gauge_cases, gauge_moves,
    shared_symbols, two_increments, two_workers, values_and_texts,
};
