//! How many files a call may name.

/// Maximum number of files of one `run` or `replay`.
pub const MAX_FILES: usize = 32;

// The limit that operators are told: contracts have it by name.
const _: () = prove!(MAX_FILES == 32);
