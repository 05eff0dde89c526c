//! A text on its way to a sink.
ghost use Rattle.std.specs.Prelude.{◌≡◌, ◌<◌, ◌≤◌, OnOk, OnErr, length};
ghost use Rattle.stats_io.specs.Push.{WritesFront};
ghost use Rattle.text_parts.specs.Gathered.{IsGathered};
ghost use Rattle.text_parts.specs.declared.buffer.TheConstants.{PUSH_BYTES};

use stats_io::{Sink, WriteFault, push_all};

/// A text is gathered until this number of bytes is held, so that a sink sees few pushes.
pub const PUSH_BYTES: usize = 65_536;

const _: () = prove!(PUSH_BYTES == 65_536);

/// Pushes the text that is held where it has `PUSH_BYTES` bytes or more, and then holds none. Else nothing happens.
/// Whoever writes a text calls this after each line or few, and `push_all` at the end.
pub fn push_full<O: Sink>(held: &mut Vec<u8>, out: &mut O) -> Result<(), WriteFault>
    ensures whole { OnOk result (IsGathered (O.state out.old) (O.state out.new) held.new.items held.old.items) }
    ensures few { OnOk result (length held.new.items < PUSH_BYTES) }
    ensures rests { length held.old.items < PUSH_BYTES
        → (held.new.items ≡ held.old.items) × (O.state out.new ≡ O.state out.old) }
    ensures front { OnErr result (WritesFront (O.state out.old) (O.state out.new) held.old.items) }
    ensures later { (O.state out.old).faults ≤ (O.state out.new).faults }
{
    if held.len() < PUSH_BYTES {
        return Ok(());
    }
    push_all(out, held)?;
    held.clear();
    Ok(())
}
