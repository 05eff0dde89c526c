//! A cell through which a worker hands full halves to a flusher and gets empty ones back, without a lock.
#![tactic(auto)]

mod cell;
mod closing;
mod flusher;
mod limits;
mod making;
mod plays;
mod tokens;
mod view;
mod worker;

pub use cell::TurnCell;
pub use closing::Rest;
pub use flusher::{Request, Take};
pub use limits::MAX_TURNED;
pub use tokens::{FlushAny, FlushHolding, FlushIdle, FlushWaiting, LeftNote, TurnWorker};
