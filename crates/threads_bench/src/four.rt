//! The seats of four threads.
ghost use Rattle.std.specs.Prelude.{◌≡◌, [], ◌∷◌, length};

/// The seats of a list of four, in their order.
pub(crate) fn four_of<S: Drop>(mut seats: Vec<S>) -> (S, S, S, S)
    requires { length seats.items ≡ 4 }
    ensures { seats.items ≡ result.0 ∷ result.1 ∷ result.2 ∷ result.3 ∷ [] }
{
    let fourth = seats.pop().unwrap();
    let third = seats.pop().unwrap();
    let second = seats.pop().unwrap();
    let first = seats.pop().unwrap();
    (first, second, third, fourth)
}
