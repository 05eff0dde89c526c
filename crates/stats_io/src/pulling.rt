//! A source, pulled up to a limit.
ghost use Rattle.std.specs.Prelude.{◌≡◌, ◌<◌, ◌≤◌, ◌+◌, max, IfOk, length};
ghost use Rattle.stats_io.specs.States.{IsLater};
ghost use Rattle.stats_io.specs.PullUpTo.{Grows, StopsBy};
ghost use Rattle.stats_io.specs.declared.pulling.TheConstants as limits;

use crate::source::{Pull, Source};
use stat_defs::NoMemory;
use std::alloc::Global;

/// Maximum number of bytes of one pull.
pub const PULL_BYTES: usize = 65_536;

const _: () = prove!(PULL_BYTES == 65_536);

/// Where the pulling of a source stopped: at its end, at its first fault, or at the first byte too many.
#[derive(Clone, Copy, Debug, PartialEq, Eq)]
pub enum Pulled {
    End,
    Failed,
    TooMany,
}

// So many zeros.
fn zeros(alloc: Global, count: usize) -> Result<Vec<u8>, NoMemory>
    ensures { IfOk result (λ bytes. length bytes.items ≡ count) }
{
    Ok(vec![in alloc; 0u8; count]?)
}

/// Pulls the source until it ends, fails or has given more bytes than `limit`, and adds what came behind the bytes that
/// are there. One pull at most goes past the limit (`bound`). Without memory the bytes that
/// came before stay.
pub fn pull_up_to<S: Source>(
    alloc: Global,
    source: &mut S,
    limit: usize,
    bytes: &mut Vec<u8>,
) -> Result<Pulled, NoMemory>
    ensures got { Grows (S.state source.old) (S.state source.new) bytes.old.items bytes.new.items }
    ensures stops { IfOk result (λ by. StopsBy by limit (S.state source.old) (S.state source.new)
        (length bytes.new.items)) }
    ensures bound { length bytes.new.items ≤ max (length bytes.old.items) (limit + limits.PULL_BYTES) }
    ensures later { IsLater (S.state source.old) (S.state source.new) }
{
    let mut chunk = zeros(alloc, PULL_BYTES)?;
    pull_by(source, limit, bytes, &mut chunk)
}

// The same, through a buffer of that length.
fn pull_by<S: Source>(
    source: &mut S,
    limit: usize,
    bytes: &mut Vec<u8>,
    chunk: &mut [u8],
) -> Result<Pulled, NoMemory>
    requires { 0 < length chunk.old }
    ensures got { Grows (S.state source.old) (S.state source.new) bytes.old.items bytes.new.items }
    ensures stops { IfOk result (λ by. StopsBy by limit (S.state source.old) (S.state source.new)
        (length bytes.new.items)) }
    ensures bound { length bytes.new.items ≤ max (length bytes.old.items) (limit + length chunk.old) }
    ensures later { IsLater (S.state source.old) (S.state source.new) }
{
    while bytes.len() <= limit {
        bytes.reserve(chunk.len())?;
        match source.pull(chunk) {
            Pull::Bytes(count) => match bytes.extend_from_slice(&chunk[..count]) {
                Ok(()) => {}
                Err(_) => unreachable!(),
            },
            Pull::End => return Ok(Pulled::End),
            Pull::Failed => return Ok(Pulled::Failed),
        }
    }
    Ok(Pulled::TooMany)
}
