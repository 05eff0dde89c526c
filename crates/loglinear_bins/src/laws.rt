//! What a list of values says of its bins.
ghost use Rattle.std.specs.Prelude.{◌≡◌, ◌+◌, ◌^◌, ◌<◌, ℕ, All, List, [], ◌∷◌, ◌++◌, if◌then◌else◌};
ghost use Rattle.stat_defs.specs.declared.bins.Bin.{Bin};
ghost use Rattle.stat_defs.specs.declared.bins.BinCount.{BinCount};
ghost use Rattle.loglinear_bins.specs.Bins.{bin_of_value, is_same};
ghost use Rattle.loglinear_bins.specs.Counts.{AreBinsOf, IsBinList, total, count_of, added, merged, bins_of};

/// What is added to a bin is added to its count and to the number of values, and every other count stays.
/// So the bins of a list of values are, after `record`, those of the list with the value.
pub fn record_law()
    ensures count { (counts : List BinCount) (bin other : Bin) (n : ℕ)
        → count_of (added counts bin n) other ≡ count_of counts other + (if is_same bin other then n else 0) }
    ensures total { (counts : List BinCount) (bin : Bin) (n : ℕ) → total (added counts bin n) ≡ total counts + n }
    ensures values { (counts : List BinCount) (values : List ℕ) (v : ℕ) → AreBinsOf counts values
        → AreBinsOf (added counts (bin_of_value v) 1) (values ++ v ∷ []) }
{}

/// All counts of two histograms are added.
/// So the bins of two lists of values are, after `merge`, those of both lists.
pub fn merge_law()
    ensures count { (counts others : List BinCount) (bin : Bin)
        → count_of (merged counts others) bin ≡ count_of counts bin + count_of others bin }
    ensures total { (counts others : List BinCount) → total (merged counts others) ≡ total counts + total others }
    ensures values { (counts others : List BinCount) (values more : List ℕ) → AreBinsOf counts values
        → AreBinsOf others more → AreBinsOf (merged counts others) (values ++ more) }
    ensures joined { (values more : List ℕ) → All (λ v. v < 2 ^ 64) values → All (λ v. v < 2 ^ 64) more
        → merged (bins_of values) (bins_of more) ≡ bins_of (values ++ more) }
{}

/// The bins of a list of values are a function of it: one value more is one more in its bin, each bin counts the values
/// that it has, and of 64-bit values they are a list of rising bins without empty ones, which merged into no values is
/// itself.
pub fn values_law()
    ensures more { (values : List ℕ) (v : ℕ) → added (bins_of values) (bin_of_value v) 1 ≡ bins_of (values ++ v ∷ []) }
    ensures each { (values : List ℕ) → AreBinsOf (bins_of values) values }
    ensures rising { (values : List ℕ) → All (λ v. v < 2 ^ 64) values → IsBinList (bins_of values) }
    ensures alone { (counts : List BinCount) → IsBinList counts → merged [] counts ≡ counts }
{}
