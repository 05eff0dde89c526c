//! Numbers and kinds of metrics and scopes.

/// The number of a metric: metrics are numbered from 0 in the order in which they are made, and no number is used
/// again.
#[derive(Clone, Copy, Debug, PartialEq, Eq, PartialOrd, Ord, Hash)]
pub struct MetricId(pub u32);

/// The number of a scope: openings are numbered from 0, and `root` is number 0.
#[derive(Clone, Copy, Debug, PartialEq, Eq, PartialOrd, Ord, Hash)]
pub struct ScopeId(pub u32);

/// The kinds of metrics. Metrics of different kinds may have one name.
#[derive(Clone, Copy, Debug, PartialEq, Eq, PartialOrd, Ord, Hash)]
pub enum Kind {
    Counter,
    Gauge,
    Histogram,
    Text,
}

/// A gauge's mode of import. The first mode other than `Uninit` that a find names stands for good.
#[derive(Clone, Copy, Debug, PartialEq, Eq, Hash)]
pub enum Mode {
    Uninit,
    Accumulate,
    Never,
}
