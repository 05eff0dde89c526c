//! A store on one thread that shows its flushes while it lives.
#![tactic(auto)]

mod fault;
mod laws;
mod pages;

pub use fault::{ApplyFault, PageFault};
pub use laws::{pages_count, stores_can_be_shown};
pub use pages::StorePages;
pub use plain_store::MAX_EVENTS;
pub use tag_rules::buckets_of;
