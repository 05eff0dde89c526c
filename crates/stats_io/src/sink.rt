//! Where bytes go.
ghost use Rattle.std.specs.Prelude.{◌≡◌, ◌<◌, ◌≤◌, length, OnOk, OnErr};
ghost use Rattle.stat_defs.specs.Faults.{Rose};
ghost use Rattle.stats_io.specs.States.{SinkState};
ghost use Rattle.stats_io.specs.Push.{FitsPiece, IfTook, Pushes, WritesWhole, WritesFront};

use std::error::Error;
use std::fmt::{Display, Formatter, Result as Written, Write};

/// What a push did: it took that many bytes, at least one, or failed.
#[derive(Clone, Copy, Debug, PartialEq, Eq)]
pub enum Push {
    Took(usize),
    Failed,
}

/// The sink failed, and a front of the bytes was written.
#[derive(Clone, Copy, Debug, PartialEq, Eq)]
pub struct WriteFault;

impl Display for WriteFault {
    ghost use Rattle.std.specs.Prelude.{Some, codes};

    ghost output = { λ _. Some (codes "write failed") };

    fn fmt<W: Write>(&self, f: &mut Formatter<W>) -> Written {
        f.write_str("write failed")
    }
}

impl Error for WriteFault {}

/// Where bytes go, as a file or a stream.
pub trait Sink {
    /// The bytes that were written, where the sink tells them, and how often a push has failed, up to the last value of
    /// a `u64`, which never falls.
    ghost state: { Self → SinkState };

    /// Writes the first bytes of the piece. A failed push writes nothing.
    fn push(&mut self, piece: &[u8]) -> Push
        requires { 0 < length piece.now }
        ensures bound { FitsPiece result (length piece.now) }
        ensures bytes { Pushes (state self.old) (state self.new) result piece.now }
        ensures failed { result ≡ Push.Failed → Rose (state self.old).faults (state self.new).faults }
        ensures kept { IfTook result (λ _. (state self.new).faults ≡ (state self.old).faults) }
        ensures later { (state self.old).faults ≤ (state self.new).faults };

    /// The count of faults.
    fn fault_count(&self) -> u64
        ensures { result ≡ (state self.now).faults };
}

/// Writes all the bytes, by as many pushes as it takes, up to the first that fails.
pub fn push_all<O: Sink>(out: &mut O, bytes: &[u8]) -> Result<(), WriteFault>
    ensures whole { OnOk result (WritesWhole (O.state out.old) (O.state out.new) bytes.now) }
    ensures front { OnErr result (WritesFront (O.state out.old) (O.state out.new) bytes.now) }
    ensures later { (O.state out.old).faults ≤ (O.state out.new).faults }
{
    let mut at = 0;
    while at < bytes.len() {
        match out.push(&bytes[at..]) {
            Push::Took(count) => at += count,
            Push::Failed => return Err(WriteFault),
        }
    }
    Ok(())
}
