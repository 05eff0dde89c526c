//! Symbol numbers in groups of seven bits, and the stored names that are made of them.
#![tactic(auto)]

mod names;
mod numbers;

pub use names::{MAX_NUMBERS, StatName, stored_names_differ_at_once, written_names_are_read_again};
pub use numbers::{
    put_number, spellings_differ_at_once, take_number, written_numbers_are_read_again,
};
