//! A list that contracts alone see.
#![tactic(auto)]

ghost use Rattle.std.specs.Prelude.{◌≡◌, List, [], ◌∷◌, ◌++◌};
ghost use Rattle.std.specs.Borrow.{ftrue};
ghost use base.Stored.{coded_list};

use std::marker::{Model, PhantomData};

/// Values, oldest first. The list takes no memory, and its calls do nothing when they run.
///
/// The items are ghost data, which nothing that runs can read. A clause on them alone says nothing of what ran: what
/// they mean is fixed by the invariant and the clauses of the type that holds the list.
#[derive(Drop)]
pub struct GhostList<T> {
    marker: PhantomData<T>,
    pub ghost items: { List T } by { coded_list T.code },
}

impl<T> Model for GhostList<T> {
    ghost also_owns = { λ _. ftrue };
}

// It owns nothing.
unsafe impl<T: Send> Send for GhostList<T> {}

impl<T> GhostList<T> {
    /// No values.
    pub fn new() -> GhostList<T>
        ensures { result.items ≡ [] }
    {
        GhostList {
            marker: PhantomData,
        }
    }

    /// The values of this list, and one more.
    pub fn and(&self, item: &T) -> GhostList<T>
        ensures { result.items ≡ self.now.items ++ item.now ∷ [] }
    {
        GhostList {
            marker: PhantomData,
        }
    }

    /// The values of this list, and one more, which the caller's proof picks by what it gives here.
    pub fn and_for<U>(&self, given: &U) -> GhostList<T>
        ghost item: { T }
        ensures { result.items ≡ self.now.items ++ item ∷ [] }
    {
        GhostList {
            marker: PhantomData,
        }
    }
}
