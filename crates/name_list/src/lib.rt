//! The counters and the gauges that a reader knows to be not gone, brought up to date by new changes alone.
//!
//! A call copies the numbers that the list has, puts the new ones behind them, and takes the gone ones out in one pass,
//! which looks each number up among the sorted gone ones. So it takes time in the names that the list has and in the
//! new changes, and without a change it does nothing. No contract speaks of these costs.
#![tactic(auto)]

mod draft;
mod laws;
mod list;
mod pass;

pub use laws::ids_are_below;
pub use list::NameList;
