//! A run of independent files writes, byte for byte, what a replay of them writes, whatever order the threads took. Laws
//! alone, and no code that runs.
#![tactic(auto)]

mod laws;

pub use laws::{same_output, three_independent};
