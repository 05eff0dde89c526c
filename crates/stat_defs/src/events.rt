//! What a worker is told to record.

use crate::ids::{Kind, Mode};
use crate::text::Txt;

/// Maximum number of bytes of a scope's label, which has at least one.
pub const MAX_LABEL_BYTES: usize = 32;

/// Maximum number of bytes of a local name, which has at least one, and of a scope's prefix.
pub const MAX_NAME_BYTES: usize = 255;

// The values that operators are told: contracts have them by name.
const _: () = prove!(MAX_LABEL_BYTES == 32 && MAX_NAME_BYTES == 255);

/// What a gauge event does to its word, which is in two's complement.
#[derive(Clone, Copy, Debug, PartialEq, Eq)]
pub enum GaugeOp {
    Add,
    Sub,
    Set,
}

/// One line of an event file.
#[derive(Drop, Debug, Clone, PartialEq, Eq)]
pub enum Event {
    /// Adds `n` units to a counter.
    Inc {
        label: Txt,
        name: Txt,
        n: u32,
    },
    /// Changes a gauge by `n`, which is below 2^63.
    Gauge {
        label: Txt,
        name: Txt,
        mode: Mode,
        op: GaugeOp,
        n: u64,
    },
    /// Records a value in a histogram.
    Rec {
        label: Txt,
        name: Txt,
        v: u64,
    },
    /// Sets a text readout.
    SetText {
        label: Txt,
        name: Txt,
        text: Txt,
    },
    /// Opens a scope.
    OpenScope {
        label: Txt,
        prefix: Txt,
    },
    /// Releases a scope.
    Release {
        label: Txt,
    },
}

/// What a metric is found by: a scope's label, a kind, a gauge's mode and the local name.
#[derive(Drop, Debug, Clone, PartialEq, Eq, Hash)]
pub struct Key {
    pub label: Txt,
    pub kind: Kind,
    /// `Uninit` for every kind but a gauge.
    pub mode: Mode,
    pub name: Txt,
}
