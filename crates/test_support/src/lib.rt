//! What tests of the program's commands share: files in memory, what a call left, and the shipped examples.
#![tactic(auto)]

mod example_texts;
mod files;
mod played;

pub use example_texts::{
    API_EVENTS, EDGE_ADMIN, EDGE_JSON, EDGE_STATSD, TAGS_EVENTS, TAGS_JSON, TAGS_PROM, TAGS_STATSD,
    TAGS_SYMBOLS, WEB_EVENTS,
};
pub use files::{file_of, shelf_of, shelf_with};
pub use played::{Played, Wanted, words_of};
