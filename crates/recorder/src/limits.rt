//! Limits of a recorder.

/// Maximum number of events that a recorder is given, 2^17: those of one file.
pub const MAX_GIVEN: u32 = 131_072;

const _: () = prove!(MAX_GIVEN == 131_072);
