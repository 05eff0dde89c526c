//! What a worker's seat holds: for each key that it found, the scope and the verdict, so that an event on a known name
//! takes no lock.
//!
//! A look-up is one hash and one comparison, and takes no memory: its key borrows its texts. An entry goes with its
//! scope. Dropping a scope marks it, and the entries of marked scopes are taken out of the table together once they are
//! as many as the others and more than a few, so that a drop costs time in the entries that it drops. No contract speaks
//! of these costs.
#![tactic(auto)]

mod cache;
mod key;
mod laws;
mod query;
mod scopes;
mod table;
mod texts;

pub use cache::Cache;
pub use laws::{a_drop_is_an_acknowledgement, a_fill_is_a_find, an_end_is_an_empty_cache};
pub use query::Query;
