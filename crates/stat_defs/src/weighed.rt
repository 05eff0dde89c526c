//! What is counted of a value that is handed over.

/// A value with a weight, as the number of values that a half of a histogram holds.
pub trait Weighed {
    ghost use Rattle.std.specs.Prelude.{◌≡◌, ℕ};

    ghost weighs: { Self → ℕ };

    /// The weight.
    fn weight(&self) -> u64
        ensures { result ≡ weighs self.now };
}
