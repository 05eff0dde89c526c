//! What a flush shows, row by row in byte order of full names.

use crate::bins::{BinList, Bound};
use crate::lists::List;
use crate::metrics::Tagged;
use crate::text::Txt;

/// A counter: its units since the flush before, and all its units so far.
#[derive(Drop, Debug)]
pub struct CounterRow {
    pub name: Txt,
    pub tagged: Tagged,
    pub delta: u64,
    pub total: u64,
}

/// A gauge, signed.
#[derive(Drop, Debug)]
pub struct GaugeRow {
    pub name: Txt,
    pub tagged: Tagged,
    pub value: i64,
}

/// A text readout.
#[derive(Drop, Debug)]
pub struct TextRow {
    pub name: Txt,
    pub text: Txt,
}

/// A histogram: its values since the flush before, all its values so far, and the bounds of its buckets, rising.
#[derive(Drop, Debug)]
pub struct HistRow {
    pub name: Txt,
    pub tagged: Tagged,
    pub interval: BinList,
    pub cumulative: BinList,
    pub bounds: List<Bound>,
}

/// What one flush shows.
#[derive(Drop, Debug)]
pub struct FlushView {
    pub counters: List<CounterRow>,
    pub gauges: List<GaugeRow>,
    pub texts: List<TextRow>,
    pub histograms: List<HistRow>,
}
