//! Why no event was made of its parts.

use stat_defs::NoMemory;
use thiserror::Error;

/// The first part of an event that is at fault, in the order in which its line has them.
#[derive(Clone, Copy, Debug, PartialEq, Eq, Error)]
pub enum EventFault {
    #[error("a label has 1 to 32 letters, digits and low lines")]
    Label,
    #[error("a name has 1 to 255 printable bytes, and no space")]
    Name,
    /// The prefix of a scope. A prefix of 255 bytes that ends in a dot could not be written, and nor could `-`.
    #[error("a prefix has at most 255 printable bytes and no space, with a final dot 254, and is not \"-\"")]
    Prefix,
    #[error("a text has printable bytes and spaces")]
    Text,
    #[error("a gauge's number is below 2^63")]
    Amount,
    #[error("out of memory")]
    NoMemory,
}

impl From<NoMemory> for EventFault {
    ghost use Rattle.std.specs.Prelude.{◌≡◌};
    ghost use Rattle.checked_events.specs.declared.fault.EventFault.TheVariants as fault;

    ghost from_gives = { λ _ f. f ≡ fault.NoMemory };

    fn from(_: NoMemory) -> Self {
        EventFault::NoMemory
    }
}
