//! What is wanted of the program, and figures.

use stat_defs::NoMemory;
use std::io;
use std::io::Print;
use std::time::Duration;

/// Rounds of each measure, 0 for a short run, and which measure, if not all.
#[derive(Drop)]
pub(crate) struct Wanted {
    pub(crate) rounds: u32,
    pub(crate) only: Option<String>,
}

impl Wanted {
    pub(crate) fn has(&self, name: &str) -> bool {
        match &self.only {
            Some(word) => word.as_str() == name,
            None => true,
        }
    }

    /// Prints the time of one of so many, or in a short run how many there were.
    pub(crate) fn print<R: Print>(
        &self,
        rt: &R,
        name: &str,
        time: Duration,
        count: u64,
    ) -> io::Result<()> {
        if self.rounds == 0 {
            return println!(rt; "{name}: {count}");
        }
        let each = time.as_nanos().wrapping_mul(1000) / u128::from(count.max(1));
        println!(rt; "{name}: {}.{:03} ns", each / 1000, each % 1000)
    }
}

pub(crate) fn no_memory(_: NoMemory) -> io::Error {
    io::Error::from(io::ErrorKind::OutOfMemory)
}
