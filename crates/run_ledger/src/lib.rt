//! How the report of a run comes out of what its parties tell.
//!
//! No code of this crate runs. A run's workers, flusher and reader share no list: each of them tells what its own
//! calls did, as values that contracts alone see. The laws join what they tell into the ledger of the report.
#![tactic(auto)]

mod laws;

pub use laws::{run_accounts, run_ends, run_grows};
