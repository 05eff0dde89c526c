//! Lists, which contracts see as their values.
ghost use Rattle.std.specs.Prelude.{◌≡◌, IfOk};
ghost use Rattle.std.specs.Cmp.Lexicographic.{pointwise, lists_equiv, lists_per};
ghost use Rattle.std.specs.List.{AllZip};

use crate::memory::NoMemory;
use std::alloc::AllocError;
use std::marker::Model;
use std::sync::ArcSlice;

/// A list of values, in order.
#[derive(Drop, Debug)]
pub struct List<T> {
    held: Vec<T>,
}

/// Symbol numbers of 32 bits, whose copies share them.
pub type Numbers = SharedList<u32>;

/// Words of 64 bits.
pub type Words = List<u64>;

impl<T> Model for List<T> {
    ghost use Rattle.std.specs.Prelude.{List as Listed};

    ghost Value = { Listed T };

    ghost view = { λ t. t.held.items };
}

impl<T> List<T> {
    pub fn of(items: Vec<T>) -> List<T>
        ensures { result ≡ items.items }
    {
        List { held: items }
    }

    pub fn items(&self) -> &[T]
        ensures { result.now ≡ self.now }
    {
        &self.held
    }

    pub fn into_items(self) -> Vec<T>
        ensures { result.items ≡ self }
    {
        let List { held } = self;
        held
    }
}

impl<T: Clone + Drop> Clone for List<T> {
    ghost is_clone = { AllZip T.is_clone };

    fn clone(&self) -> Result<List<T>, AllocError> {
        Ok(List {
            held: self.held.clone()?,
        })
    }
}

impl<T: PartialEq> PartialEq for List<T> {
    ghost eq = { pointwise T.eq };

    ghost laws = { lists_per T.PartialEq.laws };

    fn eq(&self, other: &List<T>) -> bool {
        self.items() == other.items()
    }
}

impl<T: Eq> Eq for List<T> {
    ghost laws = { lists_equiv T.Eq.laws };
}

/// A list that stays as it is: its copies share its values, which no contract says. An empty one takes no memory.
#[derive(Drop, Debug)]
pub struct SharedList<T> {
    held: Option<ArcSlice<T>>,
}

impl<T> Model for SharedList<T> {
    ghost use Rattle.std.specs.Prelude.{List as Listed, []};
    ghost use Rattle.std.specs.Option.{option_map_or};
    ghost use Rattle.std.specs.Arc.{arc_slice_items};

    ghost Value = { Listed T };

    ghost view = { λ t. option_map_or arc_slice_items t.held [] };
}

impl<T: Drop> SharedList<T> {
    pub fn of(items: Vec<T>) -> Result<SharedList<T>, NoMemory>
        ensures { IfOk result (λ list. list ≡ items.items) }
    {
        if items.is_empty() {
            return Ok(SharedList { held: None });
        }
        Ok(SharedList {
            held: Some(ArcSlice::from_vec(items)?),
        })
    }

    pub fn items(&self) -> &[T]
        ensures { result.now ≡ self.now }
    {
        match &self.held {
            None => &[],
            Some(held) => held.as_slice(),
        }
    }
}

impl<T: Drop> Clone for SharedList<T> {
    ghost is_clone = { λ list copy. copy ≡ list };

    fn clone(&self) -> Result<SharedList<T>, AllocError> {
        Ok(SharedList {
            held: match &self.held {
                None => None,
                Some(held) => Some(held.clone()?),
            },
        })
    }
}

impl<T: PartialEq + Drop> PartialEq for SharedList<T> {
    ghost eq = { pointwise T.eq };

    ghost laws = { lists_per T.PartialEq.laws };

    fn eq(&self, other: &SharedList<T>) -> bool {
        self.items() == other.items()
    }
}

impl<T: Eq + Drop> Eq for SharedList<T> {
    ghost laws = { lists_equiv T.Eq.laws };
}
