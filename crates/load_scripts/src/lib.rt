//! The scripts of events that the program makes as a load of its own.
#![tactic(auto)]

mod laws;
mod limits;
mod names;
mod state;

pub use laws::{first_events, scripts_are_files};
pub use limits::{MAX_SCRIPT_EVENTS, MAX_SCRIPTS};
pub use names::{ScriptNames, load_event};
pub use state::next_state;
