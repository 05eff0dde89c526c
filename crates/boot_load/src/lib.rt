//! The bootstrap of a program: read from a shelf, with its patterns built.
#![tactic(auto)]

mod building;
mod fault;
mod loading;
mod reading;
mod telling;

pub use fault::LoadFault;
pub use loading::{Boot, load};
pub use reading::MAX_BOOT_BYTES;
pub use telling::boot_line;
