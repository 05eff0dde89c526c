//! The generator of a script.
ghost use Rattle.std.specs.Prelude.{◌≡◌, ◌<◌, ◌^◌};
ghost use Rattle.load_scripts.specs.Load.{next_state, drawn};

const MULTIPLIER: u64 = 6_364_136_223_846_793_005;

const STEP: u64 = 1_442_695_040_888_963_407;

/// The state behind another one.
pub fn next_state(x: u64) -> u64
    ensures { result ≡ next_state x }
{
    x.wrapping_mul(MULTIPLIER).wrapping_add(STEP)
}

/// The 31 bits of a state that an event is drawn by.
pub(crate) fn drawn(x: u64) -> u64
    ensures value { result ≡ drawn x }
    ensures bound { result < 2 ^ 31 }
{
    x >> 33
}
