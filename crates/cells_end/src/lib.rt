//! The end of the workers' cells, when all workers have left: what is left in the cells and the active halves are
//! merged, and the last round's parts are made. Nothing waits.
#![tactic(auto)]

mod all;
mod end;
mod one;

pub use all::end_cells;
pub use end::CellEnd;
