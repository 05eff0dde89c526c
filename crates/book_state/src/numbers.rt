//! Sets of numbers.
ghost use Rattle.std.specs.Prelude.{◌≡◌, ◌++◌, ◌∷◌, [], false, not, IfOk, OnOk, OnErr};
ghost use Rattle.book_state.specs.declared.numbers.FewOrMany.TheVariants as kept;
ghost use Rattle.book_state.specs.Bearing.{has, with_number, NoDoubles};

use arrayvec::ArrayVec;
use indexmap::IndexSet;
use stat_defs::NoMemory;
use std::alloc::Global;
use std::marker::Model;

// Maximum number of numbers that lie in the set itself.
const FEW: usize = 8;

type Few = ArrayVec<u32, FEW>;

#[derive(Drop)]
enum FewOrMany {
    Few(Few),
    Many(IndexSet<u32>),
}

/// Numbers, each once, in the order in which they came. Contracts see the list of them. A few take no memory, which no
/// contract says.
#[derive(Drop)]
pub struct NumberSet {
    numbers: FewOrMany,
}

impl Model for NumberSet {
    ghost use Rattle.std.specs.Prelude.{List, ℕ};

    ghost Value = { List ℕ };

    ghost use Rattle.book_state.specs.Numbers.{listed, AreApart};

    ghost view = { λ set. listed set.numbers };

    ghost invariant = { λ set. AreApart set.numbers };
}

impl NumberSet {
    /// A set of no numbers.
    pub fn new() -> NumberSet
        ensures { result ≡ [] }
    {
        NumberSet {
            numbers: FewOrMany::Few(ArrayVec::new()),
        }
    }

    /// The numbers, in the order in which they came.
    pub fn as_slice(&self) -> &[u32]
        ensures { result.now ≡ self.now }
    {
        match &self.numbers {
            FewOrMany::Few(few) => few.as_slice(),
            FewOrMany::Many(index) => index.as_slice(),
        }
    }

    /// Adds a number, and says whether it is new.
    pub fn insert(&mut self, alloc: Global, number: u32) -> Result<bool, NoMemory>
        ensures set { OnOk result (self.new ≡ with_number number self.old) }
        ensures new { IfOk result (λ new. new ≡ not (has number self.old)) }
        ensures err { OnErr result (self.new ≡ self.old) }
    {
        match &mut self.numbers {
            FewOrMany::Few(few) => {
                if few.as_slice().contains(&number) {
                    return Ok(false);
                }
                if few.try_push(number).is_err() {
                    let index = index_with(alloc, few.as_slice(), number)?;
                    index_by(&mut self.numbers, index);
                }
                Ok(true)
            }
            FewOrMany::Many(index) => Ok(index.insert(number)?),
        }
    }
}

// Lists the numbers by an index from now on.
fn index_by(numbers: &mut FewOrMany, index: IndexSet<u32>)
    ensures { numbers.new ≡ kept.Many index }
{
    *numbers = FewOrMany::Many(index);
}

// The set of these numbers and one more, which is none of them.
fn index_with(alloc: Global, numbers: &[u32], more: u32) -> Result<IndexSet<u32>, NoMemory>
    requires apart { NoDoubles numbers.now }
    requires new { has more numbers.now ≡ false }
    ensures { IfOk result (λ index. index.keys ≡ numbers.now ++ more ∷ []) }
{
    let mut index = IndexSet::with_capacity(alloc, numbers.len() + 1)?;
    for number in numbers {
        index.insert(*number)?;
    }
    index.insert(more)?;
    Ok(index)
}
