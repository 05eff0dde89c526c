//! Paths into a bootstrap.
ghost use Rattle.std.specs.Prelude.{◌≡◌, ◌≢◌, ◌<◌, ◌≤◌, ◌^◌, ◌++◌, IfOk, codes, [], Ok, Err};
ghost use Rattle.boot_values.specs.Paths.{indexed, path_of};

use crate::fault::BootFault;
use stat_defs::{NoMemory, Txt};
use std::alloc::Global;

/// A member of one of a bootstrap's lists, at its place from 0.
#[derive(Clone, Copy, Debug, PartialEq, Eq)]
pub enum Place {
    /// Of the table of default tag rules.
    Default(usize),
    /// Of `stats_tags`.
    Tag(usize),
    /// Of the exclusion list's patterns.
    Excluded(usize),
    /// Of the inclusion list's patterns.
    Included(usize),
    /// Of the bucket settings.
    Setting(usize),
    /// The `match` of a bucket setting.
    Match(usize),
    /// Of the sinks.
    Sink(usize),
    /// Of the scopes.
    Scope(usize),
}

fn indexed(alloc: Global, list: &str, i: usize, part: &str, rest: &str) -> Result<Txt, NoMemory>
    ensures { IfOk result (λ t. t ≡ indexed list.now i (part.now ++ rest.now)) }
{
    let text = format!(in alloc; "{list}[{i}]{part}{rest}")?;
    Txt::of_vec(text.into_bytes())
}

/// The path of a part of the member at a place, as `stats_run.scopes[2].label` for the part `.label`; of the whole
/// member for an empty part. The part is taken as it stands, with its dot. There is an error only where memory is
/// wanting.
pub fn path_of(alloc: Global, place: Place, part: &str) -> Result<Txt, NoMemory>
    ensures { IfOk result (λ t. t ≡ path_of place part.now) }
{
    match place {
        Place::Default(i) => indexed(alloc, "default_tags", i, "", part),
        Place::Tag(i) => indexed(alloc, "stats_config.stats_tags", i, "", part),
        Place::Excluded(i) => {
            indexed(
                alloc,
                "stats_config.stats_matcher.exclusion_list.patterns",
                i,
                "",
                part,
            )
        }
        Place::Included(i) => {
            indexed(
                alloc,
                "stats_config.stats_matcher.inclusion_list.patterns",
                i,
                "",
                part,
            )
        }
        Place::Setting(i) => {
            indexed(alloc, "stats_config.histogram_bucket_settings", i, "", part)
        }
        Place::Match(i) => {
            indexed(
                alloc,
                "stats_config.histogram_bucket_settings",
                i,
                ".match",
                part,
            )
        }
        Place::Sink(i) => indexed(alloc, "stats_sinks", i, "", part),
        Place::Scope(i) => indexed(alloc, "stats_run.scopes", i, "", part),
    }
}

/// The fault of a value of the wrong type or shape, with its path as it stands: `BadKey`, or `NoMemory` where there was
/// none for the path.
pub fn bad_key(alloc: Global, path: &str) -> BootFault
    ensures { result ≢ BootFault.NoMemory → result ≡ BootFault.BadKey path.now }
{
    match Txt::of(alloc, path.as_bytes()) {
        Ok(path) => BootFault::BadKey(path),
        Err(_) => BootFault::NoMemory,
    }
}

/// The fault of a number or a list that passes a limit.
pub(crate) fn out_of_range(alloc: Global, path: &str) -> BootFault
    ensures { result ≢ BootFault.NoMemory → result ≡ BootFault.OutOfRange path.now }
{
    match Txt::of(alloc, path.as_bytes()) {
        Ok(path) => BootFault::OutOfRange(path),
        Err(_) => BootFault::NoMemory,
    }
}

/// The fault of a part, in a list, of the wrong type or shape: `BadKey` with the part's path, or `NoMemory` where there
/// was none for the path.
pub fn bad_part(alloc: Global, place: Place, part: &str) -> BootFault
    ensures { result ≢ BootFault.NoMemory → result ≡ BootFault.BadKey (path_of place part.now) }
{
    match path_of(alloc, place, part) {
        Ok(path) => BootFault::BadKey(path),
        Err(_) => BootFault::NoMemory,
    }
}

/// The fault of a pattern's text that passes its limit.
pub(crate) fn long_part(alloc: Global, place: Place, part: &str) -> BootFault
    ensures { result ≢ BootFault.NoMemory → result ≡ BootFault.OutOfRange (path_of place part.now) }
{
    match path_of(alloc, place, part) {
        Ok(path) => BootFault::OutOfRange(path),
        Err(_) => BootFault::NoMemory,
    }
}

/// The fault of the bounds of a bucket setting.
pub(crate) fn bad_bucket(alloc: Global, i: usize) -> BootFault
    ensures { result ≢ BootFault.NoMemory → result
        ≡ BootFault.BadBucket (path_of (Place.Setting i) (codes ".buckets")) }
{
    match path_of(alloc, Place::Setting(i), ".buckets") {
        Ok(path) => BootFault::BadBucket(path),
        Err(_) => BootFault::NoMemory,
    }
}
