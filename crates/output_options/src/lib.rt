//! What is asked of an output.
#![tactic(auto)]

/// How a flush is written.
#[derive(Clone, Copy, Debug, PartialEq, Eq)]
pub enum Format {
    /// StatsD lines.
    Statsd,
    /// The Prometheus exposition format.
    Prom,
    /// The text of Envoy's admin page.
    Admin,
}

/// What is asked of an output: how its flushes are written, and whether the symbols of names are told.
#[derive(Clone, Copy, Debug, PartialEq, Eq)]
pub struct OutputOptions {
    pub format: Format,
    pub symbols: bool,
}
