//! Metrics and the tags of their names.

use crate::ids::{Kind, Mode};
use crate::lists::{Numbers, SharedList};
use crate::text::Txt;

/// A tag that was drawn out of a metric's name.
#[derive(Drop, Debug, Clone, PartialEq, Eq)]
pub struct Tag {
    pub name: Txt,
    pub value: Txt,
}

/// A name without the places that its tags took, and the tags in the order of their rules. Copies share the tags.
#[derive(Drop, Debug, Clone, PartialEq, Eq)]
pub struct Tagged {
    pub extracted: Txt,
    pub tags: SharedList<Tag>,
}

/// Whether some live scope bears a metric, its last bearer was released as that release, or its name is free again.
#[derive(Clone, Copy, Debug, PartialEq, Eq)]
pub enum Life {
    Live,
    Retired(u64),
    Gone,
}

/// A metric of the book.
#[derive(Drop, Debug)]
pub struct Metric {
    /// The full name: the scope's prefix, a dot and the local name.
    pub name: Txt,
    pub kind: Kind,
    pub mode: Mode,
    /// The symbol numbers of the full name's tokens, from left to right.
    pub numbers: Numbers,
    pub tagged: Tagged,
    /// What a text readout holds, and else empty.
    pub text: Txt,
    pub life: Life,
}
