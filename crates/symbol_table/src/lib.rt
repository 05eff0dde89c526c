//! The tokens of names in use, each with its number and the count of its uses.
#![tactic(auto)]

mod laws;
mod recent;
mod slots;
mod table;

pub use laws::texts_stay;
pub use table::{MAX_USES, SymbolTable};
