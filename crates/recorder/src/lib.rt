//! A worker's side of a store that threads share.
//!
//! An event whose key is held is decided by what the recorder holds. It makes one or two steps on words, or one
//! recording in the recorder's own half, and takes no lock. Any other event is decided by the book under its lock, which
//! may wait.
#![tactic(auto)]

mod applying;
mod ended;
mod hand;
mod limits;
mod polling;
mod recorder;
mod working;

pub use ended::Ended;
pub use limits::MAX_GIVEN;
pub use polling::Polled;
pub use recorder::Recorder;
pub use working::{Handled, work_one};
