//! Where the threads of a run may be held up: before an event, a flush or a reading.
//!
//! No contract says anything of waiting: that a call returns, or what it waited for. What a gate counts is said of
//! [`Pace`], which is plain numbers.
#![tactic(auto)]

mod gate;
mod laws;
mod pace;
mod pace_gate;

pub use gate::Gate;
pub use laws::never_early;
pub use pace::Pace;
pub use pace_gate::PaceGate;
