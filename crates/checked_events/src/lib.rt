//! Events whose parts are checked where they are made.
#![tactic(auto)]

mod fault;
mod makers;
mod parts;
mod rules;

pub use fault::EventFault;
pub use makers::{gauge_add, gauge_set, gauge_sub, inc, open_scope, rec, release, set_text};
pub use parts::check;
pub use rules::{is_label, is_local_name, is_prefix, is_readout};
