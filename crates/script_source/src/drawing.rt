//! The events of a script, without their texts.
ghost use Rattle.std.specs.Prelude.{◌≡◌};
ghost use Rattle.load_scripts.specs.Load.{event_at, event_by};
ghost use Rattle.script_source.specs.Drawn.{event_as};

/// An event whose names are numbers.
#[derive(Clone, Copy)]
pub(crate) enum Drawn {
    /// Adds to the counter of that number.
    Inc { counter: u32, n: u32 },
    /// Records in the histogram of that number.
    Rec { histogram: u32, v: u32 },
    /// Adds to the gauge of the script of that number.
    Add { script: u32, n: u32 },
}

// The event that is drawn by these bits.
fn drawn_by(script: u32, r: u32) -> Drawn
    ensures { event_as result ≡ event_by script r }
{
    match r % 4 {
        2 => Drawn::Rec {
            histogram: r / 4 % 16,
            v: r / 2_048 % 100_000,
        },
        3 => Drawn::Add {
            script,
            n: r / 2_048 % 1_000,
        },
        _ => Drawn::Inc {
            counter: r / 4 % 512,
            n: r / 2_048 % 1_000,
        },
    }
}

/// The event of a state of a script.
pub(crate) fn drawn_at(script: u32, x: u64) -> Drawn
    ensures { event_as result ≡ event_at script x }
{
    drawn_by(script, (x >> 33) as u32)
}
