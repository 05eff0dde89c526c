//! The limits of an event file.

/// Maximum number of bytes of a line, without its newline.
pub const MAX_LINE_BYTES: usize = 1_024;

/// Maximum number of bytes of an event file.
pub const MAX_FILE_BYTES: usize = 8_388_608;

/// Maximum number of events of a file.
pub const MAX_EVENTS: u64 = 131_072;

/// Maximum number of bytes that a reader of an event file takes from its source at once.
pub const MAX_PULL_BYTES: usize = 4_096;

/// Maximum number of bytes that a reader of an event file holds: a line that is not whole, and what one pull adds.
pub const MAX_HELD_BYTES: usize = 5_120;

// The values that operators are told: contracts have them by name.
const _: () = prove!(
    MAX_LINE_BYTES == 1_024 && MAX_FILE_BYTES == 8_388_608 && MAX_EVENTS == 131_072
);

const _: () = prove!(MAX_PULL_BYTES == 4_096 && MAX_HELD_BYTES == 5_120);
