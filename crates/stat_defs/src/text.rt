//! Text as bytes.
ghost use Rattle.std.specs.Prelude.{◌≡◌, ◌≤◌, ◌+◌, IfOk, Some, nat_eq, refl, length, take, slice_range};
ghost use Rattle.std.specs.Hash as fed;
ghost use Rattle.std.specs.Cmp.Lexicographic.{pointwise, slice_cmp, nat_list_eq_equiv, nat_list_cmp_total, texts_ties};
ghost use Rattle.std.specs.Cmp.Lexicographic.{texts_po};
ghost use Rattle.std.specs.Cmp.{partial_equiv_from_equiv};
ghost use Rattle.std.specs.Cmp.Rules.{hashing};
ghost use Rattle.std.specs.Ordering.{nat_cmp};
ghost use Rattle.std.proofs.Common.{rules};
ghost use Rattle.stat_defs.specs.Texts.{bytes_in, bytes_of, IsPart, IsHeld};

use crate::memory::NoMemory;
use std::alloc::{AllocError, Global};
use std::cmp::Ordering;
use std::hash::{Hash, Hasher};
use std::marker::Model;
use std::sync::ArcSlice;

// Maximum number of bytes that lie in the value itself.
const MAX_SHORT: usize = 22;

// The bytes from one place of a vector up to another. Texts share the vector.
#[derive(Drop, Debug)]
struct Part {
    whole: ArcSlice<u8>,
    from: u32,
    to: u32,
}

#[derive(Drop, Debug)]
enum Held {
    Short { count: u8, bytes: [u8; MAX_SHORT] },
    Long(Part),
}

/// A text: a name, a label, a prefix or a pattern. Contracts see it as its list of bytes, and it is compared byte by
/// byte. A short text takes no memory of its own, and the copies and the parts of a long one share its bytes, which no
/// contract says.
#[derive(Drop, Debug)]
pub struct Txt {
    held: Held,
}

impl Model for Txt {
    ghost use Rattle.std.specs.Prelude.{List, ℕ};

    ghost Value = { List ℕ };

    ghost use Rattle.stat_defs.specs.Texts.{bytes_of, IsHeld};

    ghost view = { λ t. bytes_of t.held };

    ghost invariant = { λ t. IsHeld t.held };
}

const _: () = prove!(size_of::<Txt>() == 24);

// The bytes, with zeros behind them.
fn padded(bytes: &[u8]) -> [u8; MAX_SHORT]
    requires { length bytes.now ≤ MAX_SHORT }
    ensures { take (length bytes.now) result ≡ bytes.now }
{
    let mut held = [0; MAX_SHORT];
    held[..bytes.len()].copy_from_slice(bytes);
    held
}

// The bytes in the value itself.
fn in_place(bytes: &[u8]) -> Held
    requires { length bytes.now ≤ MAX_SHORT }
    ensures held { IsHeld result }
    ensures bytes { bytes_of result ≡ bytes.now }
{
    Held::Short {
        count: bytes.len() as u8,
        bytes: padded(bytes),
    }
}

// All bytes of the vector, of which a text has fewer than 2^32.
fn whole(bytes: Vec<u8>) -> Result<Held, NoMemory>
    ensures held { IfOk result IsHeld }
    ensures bytes { IfOk result (λ held. bytes_of held ≡ bytes.items) }
{
    let Ok(to) = u32::try_from(bytes.len()) else {
        return Err(NoMemory);
    };
    Ok(Held::Long(Part {
        whole: ArcSlice::from_vec(bytes)?,
        from: 0,
        to,
    }))
}

impl Part {
    // The bytes from one place of these up to another.
    fn part(&self, from: usize, to: usize) -> Result<Part, AllocError>
        requires part { IsPart self.now }
        requires places { (from ≤ to) × (self.now.from + to ≤ self.now.to) }
        ensures part { IfOk result IsPart }
        ensures bytes { IfOk result (λ part. bytes_in part ≡ slice_range (bytes_in self.now) from to) }
    {
        Ok(Part {
            whole: self.whole.clone()?,
            from: (self.from as usize + from) as u32,
            to: (self.from as usize + to) as u32,
        })
    }

    fn bytes(&self) -> &[u8]
        requires { IsPart self.now }
        ensures { result.now ≡ bytes_in self.now }
    {
        &self.whole.as_slice()[self.from as usize..self.to as usize]
    }
}

impl Txt {
    /// A copy of these bytes.
    pub fn of(alloc: Global, bytes: &[u8]) -> Result<Txt, NoMemory>
        ensures { IfOk result (λ t. t ≡ bytes.now) }
    {
        let held = if bytes.len() <= MAX_SHORT {
            in_place(bytes)
        } else {
            whole(bytes.to_vec(alloc)?)?
        };
        Ok(Txt { held })
    }

    /// The same bytes, without a copy where they are many.
    pub fn of_vec(bytes: Vec<u8>) -> Result<Txt, NoMemory>
        ensures { IfOk result (λ t. t ≡ bytes.items) }
    {
        let held = if bytes.len() <= MAX_SHORT {
            in_place(&bytes)
        } else {
            whole(bytes)?
        };
        Ok(Txt { held })
    }

    /// The bytes from one place up to another, without a copy where they are many.
    pub fn part(&self, from: usize, to: usize) -> Result<Txt, NoMemory>
        requires { (from ≤ to) × (to ≤ length self.now) }
        ensures { IfOk result (λ t. t ≡ slice_range self.now from to) }
    {
        let held = match &self.held {
            Held::Long(part) if to - from > MAX_SHORT => Held::Long(part.part(from, to)?),
            _ => in_place(&self.bytes()[from..to]),
        };
        Ok(Txt { held })
    }

    pub fn bytes(&self) -> &[u8]
        ensures { result.now ≡ self.now }
    {
        match &self.held {
            Held::Short { count, bytes } => &bytes[..*count as usize],
            Held::Long(part) => part.bytes(),
        }
    }
}

impl Clone for Txt {
    ghost is_clone = { λ text copy. copy ≡ text };

    fn clone(&self) -> Result<Txt, AllocError> {
        Ok(Txt {
            held: match &self.held {
                Held::Short { count, bytes } => Held::Short {
                    count: *count,
                    bytes: *bytes,
                },
                Held::Long(part) => Held::Long(part.part(0, (part.to - part.from) as usize)?),
            },
        })
    }
}

impl PartialEq for Txt {
    ghost eq = { pointwise nat_eq };

    ghost laws = { partial_equiv_from_equiv nat_list_eq_equiv };

    fn eq(&self, other: &Txt) -> bool {
        self.bytes() == other.bytes()
    }
}

impl Eq for Txt {
    ghost laws = { nat_list_eq_equiv };
}

impl PartialOrd for Txt {
    ghost partial_cmp = { λ x y. Some (slice_cmp nat_cmp x y) };

    ghost laws = { texts_po };

    fn partial_cmp(&self, other: &Txt) -> Option<Ordering> {
        Some(self.cmp(other))
    }
}

impl Ord for Txt {
    ghost cmp = { slice_cmp nat_cmp };

    ghost total = { nat_list_cmp_total };

    ghost matches_partial_cmp = { λ x y. refl };

    ghost matches_eq = { texts_ties };

    fn cmp(&self, other: &Txt) -> Ordering {
        self.bytes().cmp(&other.bytes())
    }
}

// A text is hashed as a whole, as `str` is: byte by byte would be one step of the hasher for each byte.
impl Hash for Txt {
    ghost hash_input = { fed.str };

    ghost respects_eq = { Prim.search (hashing, rules) };

    fn hash<H: Hasher>(&self, state: &mut H) {
        state.write(self.bytes());
        state.write_u8(255);
    }
}
