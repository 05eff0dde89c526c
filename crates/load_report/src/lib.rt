//! The scripts of a load that are applied one after another to a store on one thread.
#![tactic(auto)]

mod applying;
mod loading;

pub use loading::load_report;
