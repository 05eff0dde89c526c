//! What the flushes of a report show, and the output that is written of them: definitions, laws and worked
//! views.
#![tactic(auto)]

pub mod before;
pub mod copies;
mod laws;
mod log_names;
pub mod naming;
pub mod progress;
pub mod replaying;
mod report_views;
mod rows;
mod sums;
mod taken;
mod walk;
mod worked;

pub use laws::{
    cumulative_of_all, ends_of_workers, flushes_in_log, interval_of_values, last_bins_of_all,
    ledgers_show, names_of_ledgers, no_end_shown, none_retired, numbers_made, one_order,
    one_output, sums_rise, totals_of_units, view_of_each, views_have_bins,
};
pub use log_names::names_of_log;
pub use report_views::{ReportViews, flush_view};
pub use worked::{
    a_name_made_again, a_released_scope, a_retired_gauge, a_subtraction, gauge_moves,
    names_in_order, shared_symbols, texts_and_parts, two_increments, two_workers, values_and_texts,
};
