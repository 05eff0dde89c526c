//! The limits of a book.

/// Maximum number of metrics that are made in the life of one book, gone ones counted too.
pub const MAX_METRICS: usize = 16_384;

/// Maximum number of histograms among them.
pub const MAX_HISTOGRAMS: usize = 1_024;

/// Maximum number of workers that a book is made for.
pub const MAX_WORKERS: u32 = 32;

/// Maximum number of openings of scopes by one seat in the life of one book, refused ones counted too. So the numbers of
/// all scopes fit 32 bits.
pub const MAX_OPENINGS: usize = 8_388_608;

/// Maximum number of tokens of one full name.
pub const MAX_TOKENS: usize = 512;

// The values that operators are told: contracts have them by name.
const _: () = prove!(MAX_METRICS == 16_384 && MAX_HISTOGRAMS == 1_024 && MAX_WORKERS == 32);

const _: () = prove!(MAX_OPENINGS == 8_388_608 && MAX_TOKENS == 512);
