//! Limits of a bank.

/// Workers of a bank.
pub const MAX_WORKERS: u32 = 32;

/// Metrics of a bank.
pub const MAX_SIZE: u32 = 65_536;

/// Units that one worker's seat may add to one counter, 2^50. Those of all workers stay below 2^64.
pub const MAX_UNITS: u64 = 1_125_899_906_842_624;

/// Words from one metric's to the next one's: a cache line of 64 bytes, so that threads that step on different metrics
/// share none.
pub(crate) const LINE_WORDS: usize = 8;

// What contracts have as a number.
const _: () = prove!(LINE_WORDS == 8);
