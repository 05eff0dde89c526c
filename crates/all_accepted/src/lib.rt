//! Where the names of all events fit the limits, every event with an opened label and an admitted name is accepted,
//! whatever the threads did. Laws alone, and no code that runs.
#![tactic(auto)]

mod laws;

pub use laws::{accepted_named, all_accepted, numbers_of_names};
