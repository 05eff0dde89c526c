//! The bytes of a script, as they are taken.
ghost use Rattle.std.specs.Prelude.{◌≡◌, ◌<◌, ◌≤◌, ◌++◌, [], length, take};
ghost use Rattle.std.specs.Bool.{MatchBool};
ghost use Rattle.script_source.specs.Sources.{left_of};

use crate::drawing::drawn_at;
use crate::lines::line_of;
use crate::making::Making;
use load_scripts::next_state;

// Makes the next line in the place of the one that was taken.
fn make_line(making: &mut Making)
    requires taken { length making.old.line.bytes ≤ making.old.at }
    requires more { 1 ≤ making.old.events }
    ensures same { left_of making.new ≡ left_of making.old }
    ensures some { making.new.at < length making.new.line.bytes }
{
    let x = next_state(making.x);
    making.line = line_of(drawn_at(making.script, x));
    making.x = x;
    making.events -= 1;
    making.at = 0;
}

/// Whether a byte is left, which is then held.
pub(crate) fn holds_byte(making: &mut Making) -> bool
    ensures same { left_of making.new ≡ left_of making.old }
    ensures held { MatchBool result (making.new.at < length making.new.line.bytes) (left_of making.new ≡ []) }
{
    if making.at < making.line.len() {
        return true;
    }
    if making.events == 0 {
        return false;
    }
    make_line(making);
    true
}

/// Takes bytes of the line that is held.
pub(crate) fn take_bytes(making: &mut Making, into: &mut [u8]) -> usize
    requires held { making.old.at < length making.old.line.bytes }
    requires room { 0 < length into.old }
    ensures some { 1 ≤ result }
    ensures bound { result ≤ length into.old }
    ensures bytes { left_of making.old ≡ take result into.new ++ left_of making.new }
{
    let rest = &making.line.as_str().as_bytes()[making.at..];
    let count = rest.len().min(into.len());
    into[..count].copy_from_slice(&rest[..count]);
    making.at += count;
    count
}
