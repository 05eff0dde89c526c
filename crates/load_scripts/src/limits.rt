//! Limits of a load.

/// Maximum number of scripts.
pub const MAX_SCRIPTS: u32 = 32;

/// Maximum number of events of a script.
pub const MAX_SCRIPT_EVENTS: u32 = 131_072;

// The values that operators are told: contracts have them by name.
const _: () = prove!(MAX_SCRIPTS == 32 && MAX_SCRIPT_EVENTS == 131_072);
