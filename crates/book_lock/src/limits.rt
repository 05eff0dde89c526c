//! The bound of a lock's room.

/// The most changes of names for which a lock can have room.
pub const MAX_CHANGES: u32 = 131_072;

// The value that callers are told: contracts have it by name.
const _: () = prove!(MAX_CHANGES == 131_072);
