//! A worked run of two workers, with three flushes and two readings: what its parties tell makes its ledger, and
//! reports that differ from that of the run, or from what was asked for, in one place are no ledgers.
#![tactic(auto)]

mod worked;

pub use worked::{
    a_counter_left_out, a_delta_left_out, a_flush_left_out, a_flush_too_few,
    a_gauge_before_it_was_made, a_gauge_read_before_it_was_made, a_part_of_another_worker,
    a_place_behind_the_log, a_place_that_falls, a_reading_above_the_units, a_reading_that_falls,
    a_reading_too_few, a_report_of_two, a_value_in_another_bin, a_value_in_no_part,
    a_word_that_no_worker_set, flushes_in_another_order, two_account, units_counted_twice,
};
