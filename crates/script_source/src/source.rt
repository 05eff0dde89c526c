//! The lines of a script, as a source.
ghost use Rattle.std.specs.Prelude.{◌≡◌, ◌<◌, length};
ghost use Rattle.stats_io.specs.States.{IsLater};
ghost use Rattle.stats_io.specs.Pull.{FitsRoom, Pulls};
ghost use Rattle.load_scripts.specs.Load.{script_text};
ghost use Rattle.script_source.specs.Sources.{as_source};

use crate::lines::Line;
use crate::making::Making;
use crate::taking::{holds_byte, take_bytes};
use stats_io::{Pull, Source};
use std::marker::Model;

/// The lines of a script, each made when the one in front of it was taken. The source takes no memory and never fails:
/// its count is 0 in every state. Contracts see it as the bytes that are left.
#[derive(Drop)]
pub struct ScriptSource {
    making: Making,
}

impl Model for ScriptSource {
    ghost use Rattle.std.specs.Prelude.{List, ℕ};
    ghost use Rattle.script_source.specs.Sources.{left_of};

    ghost Value = { List ℕ };

    ghost view = { λ s. left_of s.making };
}

impl ScriptSource {
    /// The source of the first events of the script of that number.
    pub fn new(script: u32, events: u32) -> ScriptSource
        ensures { result ≡ script_text script events }
    {
        ScriptSource {
            making: Making {
                script,
                x: u64::from(script),
                events,
                line: Line::new(),
                at: 0,
            },
        }
    }
}

impl Source for ScriptSource {
    ghost state = { as_source };

    fn pull(&mut self, into: &mut [u8]) -> Pull
        requires { 0 < length into.old }
        ensures bound { FitsRoom result (length into.old) }
        ensures bytes { Pulls (as_source self.old) (as_source self.new) result into.new }
        ensures later { IsLater (as_source self.old) (as_source self.new) }
        ensures sure { ¬ (result ≡ Pull.Failed) }
    {
        if !holds_byte(&mut self.making) {
            return Pull::End;
        }
        Pull::Bytes(take_bytes(&mut self.making, into))
    }

    fn fault_count(&self) -> u64 {
        0
    }
}
