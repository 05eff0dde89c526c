//! What an operator configures.

use crate::bins::Bound;
use crate::lists::List;
use crate::text::Txt;

/// Maximum number of tag rules that a bootstrap adds to the four default ones.
pub const MAX_TAG_RULES: usize = 64;

/// Maximum number of patterns of the matcher.
pub const MAX_PATTERNS: usize = 32;

/// Maximum number of bytes of a pattern.
pub const MAX_PATTERN_BYTES: usize = 1024;

/// Maximum number of bytes of a tag's fixed value.
pub const MAX_TAG_VALUE_BYTES: usize = 255;

/// Maximum number of bucket settings.
pub const MAX_BUCKET_SETTINGS: usize = 16;

/// Maximum number of bounds of one bucket setting.
pub const MAX_BOUNDS: usize = 64;

/// The greatest bound of a bucket setting.
pub const MAX_BOUND: u64 = 1_000_000_000_000;

/// Maximum number of scopes that a bootstrap adds to `root`.
pub const MAX_SCOPES: usize = 64;

/// Maximum number of flushes during a run, and of admin readings.
pub const MAX_FLUSHES: u32 = 64;

/// Maximum number of events between two flushes.
pub const MAX_FLUSH_EVERY: u32 = 4_194_304;

// The values that operators are told: contracts have them by name.
const _: () = prove!(MAX_TAG_RULES == 64 && MAX_PATTERNS == 32 && MAX_PATTERN_BYTES == 1_024);

const _: () = prove!(MAX_TAG_VALUE_BYTES == 255 && MAX_SCOPES == 64 && MAX_FLUSHES == 64);

const _: () = prove!(MAX_BUCKET_SETTINGS == 16 && MAX_BOUNDS == 64);

const _: () = prove!(MAX_BOUND == 1_000_000_000_000 && MAX_FLUSH_EVERY == 4_194_304);

/// How a tag is drawn out of a name: by a regular expression, or always with one value.
#[derive(Drop, Debug, Clone, PartialEq, Eq)]
pub enum Rule {
    Regex(Txt),
    Fixed(Txt),
}

/// A tag's name with its rule.
#[derive(Drop, Debug, Clone, PartialEq, Eq)]
pub struct TagSpec {
    pub tag_name: Txt,
    pub rule: Rule,
}

/// A pattern over full names.
#[derive(Drop, Debug, Clone, PartialEq, Eq)]
pub enum Pattern {
    Exact(Txt),
    Prefix(Txt),
    Suffix(Txt),
    Contains(Txt),
    /// Matches where the whole name does.
    SafeRegex(Txt),
}

/// Which full names are admitted.
#[derive(Drop, Debug, Clone, PartialEq, Eq)]
pub enum MatchSpec {
    AdmitAll,
    RejectAll,
    Exclude(List<Pattern>),
    Include(List<Pattern>),
}

/// The bounds of the histograms whose full names a pattern matches.
#[derive(Drop, Debug, Clone, PartialEq, Eq)]
pub struct BucketSpec {
    pub pattern: Pattern,
    pub bounds: List<Bound>,
}

/// A scope that is open from the start.
#[derive(Drop, Debug, Clone, PartialEq, Eq)]
pub struct ScopeSpec {
    pub label: Txt,
    pub prefix: Txt,
}

/// What a bootstrap says of statistics.
#[derive(Drop, Debug, Clone, PartialEq, Eq)]
pub struct Config {
    /// The tag rules in force, the default ones first.
    pub tags: List<TagSpec>,
    /// For each tag rule the path of its pattern in the bootstrap, empty for a fixed value.
    pub tag_paths: List<Txt>,
    pub matcher: MatchSpec,
    pub buckets: List<BucketSpec>,
    pub statsd_prefix: Txt,
    /// `root`, whose prefix is empty, and then the bootstrap's scopes.
    pub scopes: List<ScopeSpec>,
    /// Flushes during a run, besides the last.
    pub flushes: u32,
    /// Events between two flushes.
    pub flush_every: u32,
    /// Admin readings.
    pub reads: u32,
}
