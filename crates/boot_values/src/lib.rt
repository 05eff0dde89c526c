//! The values of a bootstrap, read one by one.
//!
//! A value, a section, a switch, a whole number and a list are each their definition, or the fault with the path of
//! what is wrong. The matcher of names and the bucket settings stand on their own, and are read whole.
#![tactic(auto)]

mod buckets;
mod fault;
mod json;
mod matcher;
mod patterns;
mod place;

pub use buckets::settings_of;
pub use fault::BootFault;
pub use json::{Limits, is_section, items_at, json_of, member, section_at, switch_at, whole_at};
pub use matcher::matcher_of;
pub use place::{Place, bad_key, bad_part, path_of};
