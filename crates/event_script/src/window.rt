//! Where the bytes that a reader holds stand in its file.
ghost use Rattle.std.specs.Prelude.{◌≡◌, ◌≤◌, ◌<◌, ◌+◌, MatchOption, length, drop};
ghost use Rattle.event_script.specs.declared.limits.TheConstants as limits;
ghost use Rattle.event_script.specs.Window.{IsWholeEnd, IsCutShort};

use crate::buffer::Buffer;
use crate::cutting::Place;
use crate::limits::{MAX_FILE_BYTES, MAX_PULL_BYTES};
use memchr::memrchr;
use stats_io::Pulled;

// How many bytes were dropped before those that are held, how many were taken from the source, and where the last
// newline ends among those that are held.
#[derive(Clone, Copy, Debug)]
pub struct Window {
    pub dropped: u64,
    pub taken: u64,
    pub whole: usize,
}

// The place behind the last newline, or 0.
fn whole_end(bytes: &[u8]) -> usize
    ensures { IsWholeEnd bytes.now result }
{
    match memrchr(b'\n', bytes) {
        Some(at) => at + 1,
        None => 0,
    }
}

// Drops the bytes before that place, behind which no newline stands.
pub fn drop_read(held: &mut Buffer, window: &mut Window, place: &mut Place)
    requires within { place.old.at ≤ length held.old }
    requires short { window.old.dropped + length held.old ≤ limits.MAX_FILE_BYTES }
    ensures held { held.new ≡ drop place.old.at held.old }
    ensures window { window.new ≡ record window.old { dropped = window.old.dropped + place.old.at; whole = 0 } }
    ensures place { place.new ≡ record place.old { at = 0 } }
{
    held.drop_front(place.at);
    window.dropped += place.at as u64;
    window.whole = 0;
    place.at = 0;
}

// How many bytes are to be pulled, where so many were taken: none behind the first byte that a file has too many.
pub fn next_pull(taken: u64) -> usize
    requires { taken ≤ limits.MAX_FILE_BYTES }
    ensures some { 0 < result }
    ensures few { result ≤ limits.MAX_PULL_BYTES }
    ensures bound { taken + result ≤ limits.MAX_FILE_BYTES + 1 }
    ensures most { result < limits.MAX_PULL_BYTES → taken + result ≡ limits.MAX_FILE_BYTES + 1 }
{
    MAX_PULL_BYTES.min(MAX_FILE_BYTES + 1 - taken as usize)
}

// Counts bytes that were pulled, lets go of the one that a file has too many, and finds the last newline.
pub fn took(held: &mut Buffer, window: &mut Window, count: usize) -> Option<Pulled>
    requires all { window.old.dropped + length held.old ≡ window.old.taken + count }
    requires bound { window.old.taken + count ≤ limits.MAX_FILE_BYTES + 1 }
    requires some { 0 < length held.old }
    ensures dropped { window.new.dropped ≡ window.old.dropped }
    ensures taken { window.new.taken ≡ window.old.taken + count }
    ensures whole { IsWholeEnd held.new window.new.whole }
    ensures held { MatchOption result ((held.new ≡ held.old) × (window.new.taken ≤ limits.MAX_FILE_BYTES))
        (IsCutShort held.old held.new window.new) }
{
    window.taken += count as u64;
    let mut stopped = None;
    if window.taken > MAX_FILE_BYTES as u64 {
        stopped = Some(Pulled::TooMany);
        held.truncate(held.bytes().len() - 1);
    }
    window.whole = whole_end(held.bytes());
    stopped
}
