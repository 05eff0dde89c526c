//! How many values words may say.

/// Maximum number of values of one `bins`.
pub const MAX_VALUES: usize = 64;

// The limit that operators are told: contracts have it by name.
const _: () = prove!(MAX_VALUES == 64);
