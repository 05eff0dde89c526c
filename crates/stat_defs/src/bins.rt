//! The bins of log-linear histograms.

use crate::lists::List;

/// A bin of circllhist: `val` is two decimal digits and `exp` a power of ten, and the bin begins at `val / 10 *
/// 10^exp`. The bin of the value 0 is (0, 0).
#[derive(Clone, Copy, Debug, PartialEq, Eq)]
pub struct Bin {
    pub val: u8,
    pub exp: i8,
}

/// How many values fell into a bin.
#[derive(Clone, Copy, Debug, PartialEq, Eq)]
pub struct BinCount {
    pub bin: Bin,
    pub count: u64,
}

/// Bins with their counts.
pub type BinList = List<BinCount>;

/// A bound of a histogram's buckets, as twice its number, since 0.5 is one.
#[derive(Clone, Copy, Debug, PartialEq, Eq)]
pub struct Bound {
    pub halves: u64,
}
