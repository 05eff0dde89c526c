//! A worker's side of its histograms: the half that it fills, and its token of the cell through which full halves go.
#![tactic(auto)]

mod side;
mod turning;

pub use side::HalfSide;
