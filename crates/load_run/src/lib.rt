//! The scripts that the program makes as a load of its own, run side by side.
#![tactic(auto)]

mod laws;
mod running;

pub use laws::same_summary;
pub use running::run_scripts;
