//! The counts of a histogram.
ghost use Rattle.std.specs.Prelude.{◌≡◌, ◌+◌, ◌-◌, ◌<◌, ◌≤◌, ◌↔◌, ◌++◌, IfOk, IsNone, IsTrue, [], length, replicate, vec_capacity};
ghost use Rattle.loglinear_bins.specs.Bins.{bin_of_value, is_lawful};
ghost use Rattle.loglinear_bins.specs.Counts.{AreLawful, IsBinList, total, added, merged, count_at_most, sum_of};
ghost use Rattle.loglinear_bins.specs.Counts.{value_at, quantile_of};

use crate::digits::bin_of;
use crate::measures::{count_at_bound, sum_at, value_within};
use crate::place::{BIN_COUNT, MAX_COUNT, bin_at, place_of};
use stat_defs::{Bin, BinCount, BinList, Bound, List, NoMemory};
use std::alloc::Global;
use std::marker::Model;
use std::mem::swap;

/// A histogram: how many values fell into each bin of circllhist.
/// Contracts see the bins that are not empty, rising, with their counts.
#[derive(Drop, Debug)]
pub struct Bins {
    // The places up to the highest that was ever counted, in room for all: memory that holds no count stays untouched.
    counts: Vec<u64>,
    total: u64,
    // Every count below the first place, and from the second one on, is 0.
    from: u32,
    to: u32,
}

impl Model for Bins {
    ghost use Rattle.std.specs.Prelude.{List, ◌≤◌, vec_capacity};
    ghost use Rattle.loglinear_bins.specs.declared.place.TheConstants.{BIN_COUNT};
    ghost use Rattle.stat_defs.specs.declared.bins.BinCount.{BinCount};
    ghost use Rattle.loglinear_bins.specs.Table.{listed, IsTable, IsOccupied};

    ghost Value = { List BinCount };

    ghost view = { λ b. listed 0 b.counts.items };

    ghost invariant = { λ b. IsTable b.counts.items b.total
        × IsOccupied b.counts.items b.from b.to
        × (BIN_COUNT ≤ vec_capacity b.counts) };
}

impl Bins {
    /// No values, with room for every bin.
    pub fn new(alloc: Global) -> Result<Bins, NoMemory>
        ensures { IfOk result (λ bins. bins ≡ []) }
    {
        Ok(Bins {
            counts: Vec::with_capacity(alloc, BIN_COUNT)?,
            total: 0,
            from: BIN_COUNT as u32,
            to: 0,
        })
    }

    /// The values that are counted in a list of bins. A bin may stand in it more than once.
    pub fn of_pairs(alloc: Global, pairs: &[BinCount]) -> Result<Bins, NoMemory>
        requires lawful { AreLawful pairs.now }
        requires room { total pairs.now ≤ MAX_COUNT }
        ensures all { IfOk result (λ bins. bins ≡ merged [] pairs.now) }
        ensures same { IsBinList pairs.now → IfOk result (λ bins. bins ≡ pairs.now) }
    {
        let mut bins = Bins::new(alloc)?;
        bins.merge_pairs(pairs);
        Ok(bins)
    }

    /// Counts one value.
    pub fn record(&mut self, v: u64)
        requires { total self.old < MAX_COUNT }
        ensures { self.new ≡ added self.old (bin_of_value v) 1 }
    {
        self.add(bin_of(v), 1);
    }

    fn add(&mut self, bin: Bin, n: u64)
        requires lawful { IsTrue (is_lawful bin) }
        requires room { total self.old + n ≤ MAX_COUNT }
        ensures { self.new ≡ added self.old bin n }
    {
        let place = place_of(bin);
        fill_to(&mut self.counts, place + 1);
        self.counts[place] += n;
        self.total += n;
        self.from = self.from.min(place as u32);
        self.to = self.to.max(place as u32 + 1);
    }

    /// Counts all values of another histogram too.
    pub fn merge(&mut self, other: &Bins)
        requires { total self.old + total other.now ≤ MAX_COUNT }
        ensures { self.new ≡ merged self.old other.now }
    {
        fill_to(&mut self.counts, other.to as usize);
        // Slices, so that where the counts lie is read once.
        let counts = self.counts.as_mut_slice();
        let others = other.counts.as_slice();
        for place in other.from as usize..other.to as usize {
            counts[place] += others[place];
        }
        self.total += other.total;
        self.from = self.from.min(other.from);
        self.to = self.to.max(other.to);
    }

    /// Moves all values of another histogram into this one, as `Vec::append` moves elements. Where this one has none, the
    /// two change places, and no count is read.
    pub fn append(&mut self, other: &mut Bins)
        requires { total self.old + total other.old ≤ MAX_COUNT }
        ensures all { self.new ≡ merged self.old other.old }
        ensures none { other.new ≡ [] }
    {
        if other.total == 0 {
            return;
        }
        if self.total == 0 {
            swap(self, other);
            return;
        }
        self.merge(other);
        other.clear();
    }

    /// Counts the values of a list of bins too. A bin may stand in it more than once. It takes time in the list.
    pub fn merge_pairs(&mut self, pairs: &[BinCount])
        requires lawful { AreLawful pairs.now }
        requires room { total self.old + total pairs.now ≤ MAX_COUNT }
        ensures { self.new ≡ merged self.old pairs.now }
    {
        for pair in pairs {
            self.add(pair.bin, pair.count);
        }
    }

    /// Forgets all values. The room for every bin stays.
    pub fn clear(&mut self)
        ensures { self.new ≡ [] }
    {
        let counts = self.counts.as_mut_slice();
        for place in self.from as usize..self.to as usize {
            counts[place] = 0;
        }
        self.total = 0;
        self.from = BIN_COUNT as u32;
        self.to = 0;
    }

    /// Whether there are no values.
    pub fn is_empty(&self) -> bool
        ensures { IsTrue result ↔ (self.now ≡ []) }
    {
        self.total == 0
    }

    /// The number of values.
    pub fn count(&self) -> u64
        ensures total { result ≡ total self.now }
        ensures limit { result ≤ MAX_COUNT }
    {
        self.total
    }

    /// How many values are in bins whose largest whole number is at most a bound.
    pub fn at_most(&self, bound: Bound) -> u64
        ensures { result ≡ count_at_most self.now bound.halves }
    {
        let mut sum = 0;
        for (place, n) in self.counts.iter().enumerate() {
            sum += count_at_bound(place, *n, bound);
        }
        sum
    }

    /// Twenty times the sum of the values, each taken as the middle of its bin.
    pub fn sum_twentieths(&self) -> u128
        ensures { result ≡ sum_of self.now }
    {
        let mut sum = 0;
        for (place, n) in self.counts.iter().enumerate() {
            sum += sum_at(place, *n);
        }
        sum
    }

    /// A thousand times the quantile `q`, which is in thousandths, or `None` where there are no values.
    /// It lies as far into its bin as the rank, rounded up, among the values of the bin.
    pub fn quantile(&self, q: u32) -> Option<u128>
        requires { q ≤ 1000 }
        ensures value { result ≡ quantile_of self.now q }
        ensures none { IsNone result ↔ (total self.now ≡ 0) }
    {
        if self.total == 0 {
            return None;
        }
        let rank = (u64::from(q) * self.total + 999) / 1000;
        Some(self.value_at_rank(rank))
    }

    /// A thousand times the value of a rank, or 0 of a rank above the number of values.
    fn value_at_rank(&self, rank: u64) -> u128
        ensures { result ≡ value_at self.now rank }
    {
        let mut rest = rank;
        for (place, n) in self.counts.iter().enumerate() {
            if *n > 0 {
                if rest <= *n {
                    return value_within(bin_at(place), *n, rest);
                }
                rest -= *n;
            }
        }
        0
    }

    /// The bins that are not empty, rising, with their counts.
    pub fn pairs(&self, alloc: Global) -> Result<BinList, NoMemory>
        ensures all { IfOk result (λ pairs. pairs ≡ self.now) }
        ensures rising { IsBinList self.now }
        ensures limit { total self.now ≤ MAX_COUNT }
    {
        let mut pairs = Vec::new(alloc);
        for place in self.from as usize..self.to as usize {
            let n = self.counts[place];
            if n > 0 {
                pairs.push(BinCount {
                    bin: bin_at(place),
                    count: n,
                })?;
            }
        }
        Ok(List::of(pairs))
    }
}

/// Appends zeros up to a length that there is room for.
fn fill_to(counts: &mut Vec<u64>, len: usize)
    requires { len ≤ vec_capacity counts.old }
    ensures items { counts.new.items ≡ counts.old.items ++ replicate (len - length counts.old.items) 0 }
    ensures room { vec_capacity counts.new ≡ vec_capacity counts.old }
{
    for _ in counts.len()..len {
        counts.push_reserved(0);
    }
}
