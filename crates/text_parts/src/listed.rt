//! What a histogram tells, read from its list of bins with their counts.
ghost use Rattle.std.specs.Prelude.{◌≡◌, ◌≤◌};
ghost use Rattle.loglinear_bins.specs.Counts.{total, count_at_most, sum_of, value_at, quantile_of};
ghost use Rattle.text_parts.specs.Histograms.{IsHistogram};

use crate::measures::{count_at_bound, sum_at};
use loglinear_bins::{MAX_COUNT, value_within};
use stat_defs::{BinCount, Bound};

/// The number of values.
pub fn values_in(counts: &[BinCount]) -> u64
    requires { IsHistogram counts.now }
    ensures { result ≡ total counts.now }
{
    let mut sum = 0;
    for c in counts {
        sum += c.count;
    }
    sum
}

/// How many values are in bins whose largest whole number is at most a bound.
pub fn values_up_to(counts: &[BinCount], bound: Bound) -> u64
    requires { IsHistogram counts.now }
    ensures { result ≡ count_at_most counts.now bound.halves }
{
    let mut sum = 0;
    for c in counts {
        sum += count_at_bound(*c, bound);
    }
    sum
}

/// Twenty times the sum of the values, each taken as the middle of its bin.
pub fn sum_twentieths(counts: &[BinCount]) -> u128
    requires { IsHistogram counts.now }
    ensures { result ≡ sum_of counts.now }
{
    let mut sum = 0;
    for c in counts {
        sum += sum_at(*c);
    }
    sum
}

/// A thousand times the value of a rank, or 0 of a rank above the number of values.
fn value_at_rank(counts: &[BinCount], rank: u64) -> u128
    requires bins { IsHistogram counts.now }
    requires rank { rank ≤ MAX_COUNT }
    ensures { result ≡ value_at counts.now rank }
{
    let mut rest = rank;
    for c in counts {
        if rest <= c.count {
            return value_within(c.bin, c.count, rest);
        }
        rest -= c.count;
    }
    0
}

/// A thousand times the quantile `q`, which is in thousandths, or `None` where there are no values.
/// It lies as far into its bin as the rank, rounded up, among the values of the bin.
pub fn quantile(counts: &[BinCount], q: u32) -> Option<u128>
    requires bins { IsHistogram counts.now }
    requires share { q ≤ 1000 }
    ensures { result ≡ quantile_of counts.now q }
{
    let n = values_in(counts);
    if n == 0 {
        return None;
    }
    Some(value_at_rank(counts, (u64::from(q) * n + 999) / 1000))
}
