//! Where a bin lies among the numbers: its low end, width, largest whole number and middle.
ghost use Rattle.std.specs.Prelude.{◌≡◌, ◌+◌, ◌*◌, ◌/◌, ◌^◌, ◌<◌, ◌≤◌, IsTrue, nat_le, if◌then◌else◌};
ghost use Rattle.loglinear_bins.specs.Bins.{steps, is_lawful, low_thousandths as the_low};
ghost use Rattle.loglinear_bins.specs.Bins.{width_thousandths as the_width, largest_whole as the_largest};
ghost use Rattle.loglinear_bins.specs.Bins.{mark_twentieths as the_mark};
ghost use Rattle.loglinear_bins.specs.Table.{bin_at as the_bin};

use crate::digits::power_of_ten;
use crate::place::{BIN_COUNT, MAX_COUNT, bin_at, steps_of};
use stat_defs::{Bin, Bound};

/// Ten to the power of a bin's exponent.
fn unit_of(bin: Bin) -> u128
    requires { IsTrue (is_lawful bin) }
    ensures unit { result ≡ 10 ^ steps bin.exp }
    ensures bound { result < 2 ^ 64 }
{
    u128::from(power_of_ten(steps_of(bin)))
}

/// A thousand times the least value of a bin.
#[tactic(auto, unfolding(crate::specs::Bins::low_thousandths))]
fn low_thousandths(bin: Bin) -> u128
    requires { IsTrue (is_lawful bin) }
    ensures low { result ≡ the_low bin }
    ensures bound { result < 2 ^ 80 }
{
    u128::from(bin.val) * 100 * unit_of(bin)
}

/// A thousand times the width of a bin.
#[tactic(auto, unfolding(crate::specs::Bins::width_thousandths))]
fn width_thousandths(bin: Bin) -> u128
    requires { IsTrue (is_lawful bin) }
    ensures width { result ≡ the_width bin }
    ensures bound { result < 2 ^ 71 }
{
    if bin.val == 0 { 0 } else { 100 * unit_of(bin) }
}

/// A thousand times the value that stands a part `rest / n` of the way through a bin.
pub fn value_within(bin: Bin, n: u64, rest: u64) -> u128
    requires lawful { IsTrue (is_lawful bin) }
    requires some { 0 < n }
    requires part { rest ≤ MAX_COUNT }
    ensures { result ≡ the_low bin + the_width bin * rest / n }
{
    low_thousandths(bin) + width_thousandths(bin) * u128::from(rest) / u128::from(n)
}

/// The largest whole number in a bin.
#[tactic(auto, unfolding(crate::specs::Bins::largest_whole))]
pub fn largest_whole(bin: Bin) -> u128
    requires { IsTrue (is_lawful bin) }
    ensures largest { result ≡ the_largest bin }
    ensures bound { result < 2 ^ 72 }
{
    let steps = steps_of(bin);
    let val = u128::from(bin.val);
    if steps == 0 {
        val / 10
    } else {
        (val + 1) * u128::from(power_of_ten(steps - 1)) - 1
    }
}

/// How many of the `n` values of a place count at a bound: all or none.
pub(crate) fn count_at_bound(place: usize, n: u64, bound: Bound) -> u64
    requires { place < BIN_COUNT }
    ensures { result ≡ (if nat_le (2 * the_largest (the_bin place)) bound.halves then n else 0) }
{
    if n > 0 && 2 * largest_whole(bin_at(place)) <= u128::from(bound.halves) {
        n
    } else {
        0
    }
}

/// Twenty times the middle of a bin.
#[tactic(auto, unfolding(crate::specs::Bins::mark_twentieths))]
pub fn mark_twentieths(bin: Bin) -> u128
    requires { IsTrue (is_lawful bin) }
    ensures mark { result ≡ the_mark bin }
    ensures bound { result < 2 ^ 73 }
{
    if bin.val == 0 {
        0
    } else {
        (2 * u128::from(bin.val) + 1) * unit_of(bin)
    }
}

/// Twenty times the sum of the `n` values of a place, each taken as the middle of its bin.
pub(crate) fn sum_at(place: usize, n: u64) -> u128
    requires place { place < BIN_COUNT }
    requires few { n ≤ MAX_COUNT }
    ensures sum { result ≡ n * the_mark (the_bin place) }
    ensures bound { result ≤ n * 2 ^ 73 }
{
    if n == 0 {
        0
    } else {
        u128::from(n) * mark_twentieths(bin_at(place))
    }
}
