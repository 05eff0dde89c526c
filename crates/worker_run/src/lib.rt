//! One worker of a run: it reads its file, and applies its events to a store that threads share.
//!
//! What it did is what its recorder tells, whatever the other threads do meanwhile.
#![tactic(auto)]

mod given;
mod worker_gate;
mod working;

pub use given::{Given, Job, Worked};
pub use worker_gate::WorkerGate;
pub use working::work;
