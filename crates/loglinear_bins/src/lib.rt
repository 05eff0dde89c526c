//! Histograms in the log-linear bins of circllhist: two significant decimal digits and a power of ten.
#![tactic(auto)]

mod bins;
mod digits;
mod laws;
mod measures;
mod place;

pub use bins::Bins;
pub use digits::bin_of;
pub use laws::{merge_law, record_law, values_law};
pub use measures::{largest_whole, mark_twentieths, value_within};
pub use place::{BIN_COUNT, MAX_COUNT};
