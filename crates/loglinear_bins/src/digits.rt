//! The bin of a value, from its decimal digits.
ghost use Rattle.std.specs.Prelude.{◌≡◌, ◌+◌, ◌*◌, ◌/◌, ◌^◌, ◌<◌, ◌≤◌, IsTrue};
ghost use Rattle.loglinear_bins.specs.Bins.{bin_of_value, is_lawful};

use stat_defs::Bin;

/// The powers of ten of 64 bits.
pub(crate) static POWERS: [u64; 20] = [
    1,
    10,
    100,
    1_000,
    10_000,
    100_000,
    1_000_000,
    10_000_000,
    100_000_000,
    1_000_000_000,
    10_000_000_000,
    100_000_000_000,
    1_000_000_000_000,
    10_000_000_000_000,
    100_000_000_000_000,
    1_000_000_000_000_000,
    10_000_000_000_000_000,
    100_000_000_000_000_000,
    1_000_000_000_000_000_000,
    10_000_000_000_000_000_000,
];

/// Ten to this power.
pub(crate) fn power_of_ten(exp: usize) -> u64
    requires { exp < 20 }
    ensures { result ≡ 10 ^ exp }
{
    POWERS[exp]
}

/// How many digits follow the first one of a number with this binary logarithm, or one more.
/// 1233 / 4096 is just above the decimal logarithm of 2.
fn digits_guessed(log: u32) -> usize
    requires { log < 64 }
    ensures bound { result < 20 }
    ensures enough { 2 * 2 ^ log ≤ 10 ^ (result + 1) }
    ensures close { 10 ^ result ≤ 10 * 2 ^ log }
{
    ((log + 1) * 1233 / 4096) as usize
}

/// How many decimal digits follow the first one.
fn digits_after_first(v: u64) -> usize
    requires { 0 < v }
    ensures bound { result < 20 }
    ensures reached { 10 ^ result ≤ v }
    ensures below_next { v < 10 ^ (result + 1) }
{
    let guess = digits_guessed(v.ilog2());
    if v < power_of_ten(guess) {
        guess - 1
    } else {
        guess
    }
}

// A number without its last digits, so many of them. A division by a constant is a multiplication.
fn without_digits(v: u64, count: usize) -> u64
    requires { count < 20 }
    ensures { result ≡ v / 10 ^ count }
{
    match count {
        0 => v,
        1 => v / 10,
        2 => v / 100,
        3 => v / 1_000,
        4 => v / 10_000,
        5 => v / 100_000,
        _ => v / power_of_ten(count),
    }
}

/// The bin of a value: its first two decimal digits, or ten times its one digit, and how many digits follow the first
/// one.
pub fn bin_of(v: u64) -> Bin
    ensures bin { result ≡ bin_of_value v }
    ensures lawful { IsTrue (is_lawful result) }
{
    if v < 10 {
        return Bin {
            val: v as u8 * 10,
            exp: 0,
        };
    }
    let exp = digits_after_first(v);
    let val = without_digits(v, exp - 1);
    Bin {
        val: val as u8,
        exp: exp as i8,
    }
}
