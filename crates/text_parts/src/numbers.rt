//! Numbers, as texts print them.
ghost use Rattle.std.specs.Prelude.{◌≡◌, ◌+◌, ◌++◌, ◌<◌, ◌≤◌, OnOk, OnErr, vec_len, vec_capacity};
ghost use Rattle.std.specs.Fmt.{decimal, signed_decimal};
ghost use Rattle.text_parts.specs.Decimals.{hundredth_digits, fraction, thousandths as thousandths_text};
ghost use Rattle.text_parts.specs.Decimals.{twentieths as twentieths_text, halves as halves_text};

use itoa::Buffer;
use std::alloc::AllocError;

// A dot and three digits.
const MAX_FRACTION_BYTES: usize = 4;

/// Appends a number.
pub fn put_number(text: &mut Vec<u8>, n: u64) -> Result<(), AllocError>
    ensures appended { OnOk result (text.new.items ≡ text.old.items ++ decimal n) }
    ensures kept { OnErr result (text.new.items ≡ text.old.items) }
{
    text.extend_from_slice(Buffer::new().format(n).as_bytes())
}

/// Appends a number, with a minus sign where it is negative.
pub fn put_signed(text: &mut Vec<u8>, n: i64) -> Result<(), AllocError>
    ensures appended { OnOk result (text.new.items ≡ text.old.items ++ signed_decimal n) }
    ensures kept { OnErr result (text.new.items ≡ text.old.items) }
{
    text.extend_from_slice(Buffer::new().format(n).as_bytes())
}

fn put_hundredth_digits(text: &mut Vec<u8>, n: u8)
    requires digits { n < 100 }
    requires room { vec_len text.old + 2 ≤ vec_capacity text.old }
    ensures { text.new.items ≡ text.old.items ++ hundredth_digits n }
{
    if n == 0 {
        return;
    }
    text.push_reserved(b'0' + n / 10);
    if n % 10 == 0 {
        return;
    }
    text.push_reserved(b'0' + n % 10);
}

fn put_fraction(text: &mut Vec<u8>, n: u16)
    requires digits { n < 1000 }
    requires room { vec_len text.old + MAX_FRACTION_BYTES ≤ vec_capacity text.old }
    ensures { text.new.items ≡ text.old.items ++ fraction n }
{
    if n == 0 {
        return;
    }
    text.push_reserved(b'.');
    text.push_reserved(b'0' + (n / 100) as u8);
    put_hundredth_digits(text, (n % 100) as u8);
}

fn put_decimal(text: &mut Vec<u8>, whole: u128, thousandths: u16) -> Result<(), AllocError>
    requires { thousandths < 1000 }
    ensures appended { OnOk result (text.new.items ≡ text.old.items ++ (decimal whole ++ fraction thousandths)) }
    ensures kept { OnErr result (text.new.items ≡ text.old.items) }
{
    let mut buffer = Buffer::new();
    let digits = buffer.format(whole).as_bytes();
    text.reserve(digits.len() + MAX_FRACTION_BYTES)?;
    match text.extend_from_slice(digits) {
        Ok(()) => {}
        Err(_) => unreachable!(),
    }
    put_fraction(text, thousandths);
    Ok(())
}

/// Appends a number of thousandths as a decimal without final zeros.
pub fn put_thousandths(text: &mut Vec<u8>, n: u128) -> Result<(), AllocError>
    ensures appended { OnOk result (text.new.items ≡ text.old.items ++ thousandths_text n) }
    ensures kept { OnErr result (text.new.items ≡ text.old.items) }
{
    put_decimal(text, n / 1000, (n % 1000) as u16)
}

/// Appends a number of twentieths as a decimal without final zeros.
pub fn put_twentieths(text: &mut Vec<u8>, n: u128) -> Result<(), AllocError>
    ensures appended { OnOk result (text.new.items ≡ text.old.items ++ twentieths_text n) }
    ensures kept { OnErr result (text.new.items ≡ text.old.items) }
{
    put_decimal(text, n / 20, 50 * (n % 20) as u16)
}

/// Appends a number of halves as a decimal without final zeros.
pub fn put_halves(text: &mut Vec<u8>, n: u64) -> Result<(), AllocError>
    ensures appended { OnOk result (text.new.items ≡ text.old.items ++ halves_text n) }
    ensures kept { OnErr result (text.new.items ≡ text.old.items) }
{
    put_decimal(text, u128::from(n / 2), 500 * (n % 2) as u16)
}
