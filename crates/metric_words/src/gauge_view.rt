//! What a seat of a gauge bank knows. No value of these types is made but a `GaugeKey`.

use seat_parts::Parts;
use std::collections::LinkedList;

/// The kinds of step on a gauge's word.
pub enum GaugeKind {
    Add,
    Sub,
    Set,
    Load,
}

/// A step on the word of the gauge `id`: its number, and the word that it found.
pub struct GaugeStep {
    pub kind: GaugeKind,
    pub id: u64,
    pub n: u64,
    pub found: u64,
}

/// A seat of a bank of so many workers, by its number, with its steps, the newest first.
pub struct GaugePart {
    pub seat: u64,
    pub workers: u64,
    pub steps: LinkedList<GaugeStep>,
}

/// The part of a seat, and behind it those of the seats that it took in.
pub type GaugeView = Parts<GaugePart>;

/// What the table of a bank is told: how many workers it has, and how many gauges.
#[derive(Clone, Copy, Drop)]
pub struct GaugeKey {
    pub workers: u64,
    pub size: u64,
}
