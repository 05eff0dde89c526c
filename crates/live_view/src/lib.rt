//! What the flushes of a store show while it goes on.
#![tactic(auto)]

mod copies;
mod following;
mod laws;
mod live_views;

pub use laws::report_shows;
pub use live_views::LiveViews;
