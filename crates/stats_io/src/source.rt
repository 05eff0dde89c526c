//! Where bytes come from.
ghost use Rattle.std.specs.Prelude.{◌≡◌, ◌<◌, length};
ghost use Rattle.stat_defs.specs.Faults.{Rose};
ghost use Rattle.stats_io.specs.States.{SourceState, IsLater};
ghost use Rattle.stats_io.specs.Pull.{FitsRoom, Pulls};

/// What a pull gave: that many bytes, at least one, the end, or a failure.
#[derive(Clone, Copy, Debug, PartialEq, Eq)]
pub enum Pull {
    Bytes(usize),
    End,
    Failed,
}

/// Where bytes come from, as a file.
pub trait Source {
    /// The bytes that are left, where the source tells them; where they come from, as the name of a file, which no call
    /// changes; and how often a pull has failed, up to the last value of a `u64`, which never falls.
    ghost state: { Self → SourceState };

    /// Puts the next bytes to the front of `into`. A failed pull takes none.
    fn pull(&mut self, into: &mut [u8]) -> Pull
        requires { 0 < length into.old }
        ensures bound { FitsRoom result (length into.old) }
        ensures bytes { Pulls (state self.old) (state self.new) result into.new }
        ensures failed { result ≡ Pull.Failed → Rose (state self.old).faults (state self.new).faults }
        ensures later { IsLater (state self.old) (state self.new) };

    /// The count of faults.
    fn fault_count(&self) -> u64
        ensures { result ≡ (state self.now).faults };
}
