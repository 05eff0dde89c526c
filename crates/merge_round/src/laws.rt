//! What the bins of a half are of the values that were recorded in it, and which threads may hold one.
ghost use Rattle.std.specs.Prelude.{◌≡◌, ℕ, List, [], ◌∷◌, ◌++◌};
ghost use Rattle.merge_round.specs.Halves.{no_bins, with_value, bins_by, AreSmall};
ghost use Rattle.merge_round.specs.Rounds.{both};

use crate::half::Half;
use crate::parents::Parents;

/// The bins of a half are a function of the list of what was recorded in it, each value with its histogram: one value
/// more lengthens the list at its end, and those of two halves merged are those of both lists. And the first half that is taken in a round gives its own bins.
pub fn half_law()
    ensures none { bins_by [] ≡ no_bins }
    ensures more { (values : List (ℕ × ℕ)) (id v : ℕ) → with_value (bins_by values) id v
        ≡ bins_by (values ++ (id, v) ∷ []) }
    ensures both { (values more : List (ℕ × ℕ)) → AreSmall values → AreSmall more
        → both (bins_by values) (bins_by more) ≡ bins_by (values ++ more) }
    ensures first { (values : List (ℕ × ℕ)) → AreSmall values → both no_bins (bins_by values)
        ≡ bins_by values }
{}

/// A half and parents may be given to another thread: the code compiles.
pub fn thread_law(half: &Half, parents: &Parents) {
    for_threads(half);
    for_threads(parents);
}

fn for_threads<T: Send>(_value: &T) {}
