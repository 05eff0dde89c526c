//! Limits of a cell.

/// Maximum weight of all halves that a worker turns: one value for each event of a file.
pub const MAX_TURNED: u64 = 131_072;

const _: () = prove!(MAX_TURNED == 131_072);
