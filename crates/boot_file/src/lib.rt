//! What an operator's bootstrap says of statistics.
//!
//! A bootstrap is the JSON that a proxy is run with. What concerns statistics is read from it, every other key is
//! passed over, and the first thing that is wrong is told with its path.
#![tactic(auto)]

mod boot;
mod default_tags;
mod run;
mod scopes;
mod sinks;
mod tags;

pub use boot::{read, usual};
pub use boot_values::BootFault;
