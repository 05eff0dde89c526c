//! The first words of lines.

// The first word of an event's line.
#[derive(Clone, Copy, Debug, PartialEq, Eq)]
pub enum Word {
    Inc,
    Add,
    Sub,
    Set,
    Rec,
    Text,
    Open,
    Release,
}
