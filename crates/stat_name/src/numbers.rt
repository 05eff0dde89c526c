//! The spelling of one number.
ghost use Rattle.std.specs.Prelude.{◌≡◌, ℕ, ◌++◌, OnOk, OnErr};
ghost use Rattle.stat_name.specs.Spelling.{spelling, Takes, BeginsAtMostOne, IsReadAgain};

use stat_defs::NoMemory;
use std::alloc::Global;

/// Maximum number of bytes of a spelling: 32 bits in groups of seven.
pub const MAX_SPELLING_BYTES: usize = 5;

const _: () = prove!(MAX_SPELLING_BYTES == 5);

/// Appends the spelling of the number, which has 1 to 5 bytes. `out` grows by its own allocator.
pub fn put_number(_alloc: Global, n: u32, out: &mut Vec<u8>) -> Result<(), NoMemory>
    ensures ok { OnOk result (out.new.items ≡ out.old.items ++ spelling n) }
    ensures err { OnErr result (out.new.items ≡ out.old.items) }
{
    let mut groups = [0u8; MAX_SPELLING_BYTES];
    let mut len = 0;
    let mut left = n;
    while left >= 128 {
        groups[len] = (left % 128) as u8 + 128;
        len += 1;
        left /= 128;
    }
    groups[len] = left as u8;
    out.extend_from_slice(&groups[..len + 1])?;
    Ok(())
}

/// The number whose spelling the bytes begin with, and the length of that spelling. There is at most one such number.
pub fn take_number(bytes: &[u8]) -> Option<(u32, usize)>
    ensures { Takes bytes.now result }
{
    let mut sum: u64 = 0;
    let mut scale: u64 = 1;
    for (i, byte) in bytes.iter().enumerate() {
        if i == MAX_SPELLING_BYTES {
            return None;
        }
        let group = u64::from(*byte);
        if group < 128 {
            if group == 0 && i > 0 {
                return None;
            }
            let n = sum + scale * group;
            if n >= 1 << 32 {
                return None;
            }
            return Some((n as u32, i + 1));
        }
        sum += scale * (group - 128);
        scale *= 128;
    }
    None
}

/// A law: no spelling is a prefix of another one.
pub fn spellings_differ_at_once()
    ensures { BeginsAtMostOne }
{}

/// A law: a number that was written is read again, whatever follows.
pub fn written_numbers_are_read_again()
    ensures { IsReadAgain }
{}
