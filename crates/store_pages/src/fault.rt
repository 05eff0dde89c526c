//! Why an event was not applied, or no page was given.

use stat_defs::NoMemory;
use thiserror::Error;

/// Why an event was not applied.
#[derive(Clone, Copy, Debug, PartialEq, Eq, Error)]
pub enum ApplyFault {
    /// The store has taken `MAX_EVENTS` events. Pages are given as before.
    #[error("the store has taken all events that it takes")]
    Full,
    /// The event is not counted, and each later page shows what it would have shown.
    #[error("out of memory")]
    NoMemory,
}

/// Why no page was given.
#[derive(Clone, Copy, Debug, PartialEq, Eq, Error)]
pub enum PageFault {
    /// An earlier page found no memory.
    #[error("an earlier page was cut short")]
    CutShort,
    /// No later page is given. Events are applied as before.
    #[error("out of memory")]
    NoMemory,
}

impl From<NoMemory> for ApplyFault {
    ghost use Rattle.std.specs.Prelude.{◌≡◌};
    ghost use Rattle.store_pages.specs.declared.fault.ApplyFault.TheVariants as fault;

    ghost from_gives = { λ _ f. f ≡ fault.NoMemory };

    fn from(_: NoMemory) -> Self {
        ApplyFault::NoMemory
    }
}

impl From<NoMemory> for PageFault {
    ghost use Rattle.std.specs.Prelude.{◌≡◌};
    ghost use Rattle.store_pages.specs.declared.fault.PageFault.TheVariants as fault;

    ghost from_gives = { λ _ f. f ≡ fault.NoMemory };

    fn from(_: NoMemory) -> Self {
        PageFault::NoMemory
    }
}
