//! What the texts of a flush share: numbers as they are printed, a buffer whose text goes to a sink in large pieces,
//! and the faults of writing a text.
#![tactic(auto)]

mod buffer;
mod fault;
mod listed;
mod measures;
mod numbers;

pub use buffer::{PUSH_BYTES, push_full};
pub use fault::TextFault;
pub use listed::{quantile, sum_twentieths, values_in, values_up_to};
pub use numbers::{put_halves, put_number, put_signed, put_thousandths, put_twentieths};
