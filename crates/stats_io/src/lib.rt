//! Where bytes come from and go to, with a count of faults that never falls.
#![tactic(auto)]

mod adapters;
mod file;
mod mem_shelf;
mod mem_sink;
mod mem_source;
mod pulling;
mod shelf;
mod sink;
mod source;

pub use adapters::{FileSource, FolderShelf, StdSink};
pub use file::MemFile;
pub use mem_shelf::MemShelf;
pub use mem_sink::MemSink;
pub use mem_source::{MemSource, SureSource};
pub use pulling::{PULL_BYTES, Pulled, pull_up_to};
pub use shelf::{OpenFault, Shelf};
pub use sink::{Push, Sink, WriteFault, push_all};
pub use source::{Pull, Source};
