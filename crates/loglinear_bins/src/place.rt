//! The place of a bin in the table of counts.
ghost use Rattle.std.specs.Prelude.{◌≡◌, ◌<◌, IsTrue};
ghost use Rattle.loglinear_bins.specs.Bins.{steps, is_lawful};
ghost use Rattle.loglinear_bins.specs.Table.{place_of as the_place, bin_at as the_bin};

use stat_defs::Bin;

/// The greatest exponent of a bin of 64-bit values.
const GREATEST_EXP: usize = 19;

/// The greatest first two digits at that exponent.
const GREATEST_VAL: usize = 18;

/// How many bins 64-bit values meet: 10 at the least exponent and 90 at each other one, up to the greatest bin.
pub const BIN_COUNT: usize = 90 * (GREATEST_EXP - 1) + GREATEST_VAL + 1;

/// The most values of one histogram, as this project limits it.
pub const MAX_COUNT: u64 = 1 << 40;

/// How far the exponent of a bin is above the least one.
pub(crate) fn steps_of(bin: Bin) -> usize
    requires { IsTrue (is_lawful bin) }
    ensures steps { result ≡ steps bin.exp }
    ensures bound { result < 20 }
{
    bin.exp as usize
}

/// The place of a bin, in their order.
pub(crate) fn place_of(bin: Bin) -> usize
    requires { IsTrue (is_lawful bin) }
    ensures place { result ≡ the_place bin }
    ensures bound { result < BIN_COUNT }
{
    let steps = steps_of(bin);
    let val = bin.val as usize;
    if steps == 0 {
        val / 10
    } else {
        90 * steps + val - 90
    }
}

/// The bin at a place.
pub(crate) fn bin_at(place: usize) -> Bin
    requires { place < BIN_COUNT }
    ensures bin { result ≡ the_bin place }
    ensures lawful { IsTrue (is_lawful result) }
{
    if place < 10 {
        return Bin {
            val: 10 * place as u8,
            exp: 0,
        };
    }
    let over = place - 10;
    Bin {
        val: (over % 90) as u8 + 10,
        exp: (over / 90 + 1) as i8,
    }
}
