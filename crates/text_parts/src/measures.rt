//! What the values of one bin add to the numbers of a histogram.
ghost use Rattle.std.specs.Prelude.{◌≡◌, ◌*◌, ◌^◌, ◌≤◌, IsTrue, nat_le, if◌then◌else◌};
ghost use Rattle.loglinear_bins.specs.Bins.{is_lawful, largest_whole as the_largest, mark_twentieths as the_mark};

use loglinear_bins::{MAX_COUNT, largest_whole, mark_twentieths};
use stat_defs::{BinCount, Bound};

/// How many of a bin's values count at a bound: all or none.
pub(crate) fn count_at_bound(c: BinCount, bound: Bound) -> u64
    requires { IsTrue (is_lawful c.bin) }
    ensures { result ≡ (if nat_le (2 * the_largest c.bin) bound.halves then c.count else 0) }
{
    if 2 * largest_whole(c.bin) <= u128::from(bound.halves) {
        c.count
    } else {
        0
    }
}

/// Twenty times the sum of a bin's values, each taken as the middle of the bin.
pub(crate) fn sum_at(c: BinCount) -> u128
    requires lawful { IsTrue (is_lawful c.bin) }
    requires few { c.count ≤ MAX_COUNT }
    ensures sum { result ≡ c.count * the_mark c.bin }
    ensures bound { result ≤ c.count * 2 ^ 73 }
{
    u128::from(c.count) * mark_twentieths(c.bin)
}
