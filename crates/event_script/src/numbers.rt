//! Numbers at the end of a line.
ghost use Rattle.std.specs.Prelude.{◌≡◌, ◌<◌, ◌≤◌, ◌+◌, ◌*◌, MatchOption, length, slice_index, ◌⊎◌};
ghost use Rattle.std.specs.Bool.{MatchBool};
ghost use Rattle.std.specs.Char.{digit_value};
ghost use Rattle.event_script.specs.EventIn.{read_number};
ghost use Rattle.event_script.specs.FirstLine.{HasDigits, HasMoreThan, HasLine, LacksLine};
ghost use Rattle.event_script.specs.FirstLine as found;

// The value of a digit, and 10 or more of any other byte.
fn digit_of(b: u8) -> u64
    ensures digit { result < 10 → result ≡ digit_value b }
    ensures other { 10 ≤ result → 10 ≤ digit_value b }
{
    u64::from(b.wrapping_sub(b'0'))
}

// The number with one more digit behind it, where it is at most `most`.
#[inline(always)]
fn with_digit(n: u64, digit: u64, most: u64) -> Option<u64>
    ensures { MatchOption result (most < n * 10 + digit) (λ m. (m ≡ n * 10 + digit) × (m ≤ most)) }
{
    let Some(shifted) = n.checked_mul(10) else {
        return None;
    };
    let Some(sum) = shifted.checked_add(digit) else {
        return None;
    };
    if sum > most { None } else { Some(sum) }
}

// The value of the digits that stand first, and how many they are, where it is at most `most`. A function of its own:
// inlined, each early return would write the whole empty event of its caller, once a digit.
#[inline(never)]
fn digits_first(text: &[u8], most: u64) -> Option<(u64, usize)>
    ensures { MatchOption result (HasMoreThan text.now most) (λ p. HasDigits text.now p.0 p.1 × (p.0 ≤ most)) }
{
    let mut n: u64 = 0;
    for (at, b) in text.iter().enumerate() {
        let digit = digit_of(*b);
        if digit >= 10 {
            return Some((n, at));
        }
        let Some(more) = with_digit(n, digit, most) else {
            return None;
        };
        n = more;
    }
    Some((n, text.len()))
}

// Whether a line ends before these bytes.
pub fn is_end(text: &[u8]) -> bool
    ensures { result ≡ found.is_end text.now }
{
    text.is_empty() || text[0] == b'\n'
}

// Whether so many digits are a number: one at least, and no zero before others.
fn is_numeral(text: &[u8], count: usize) -> bool
    requires { count ≤ length text.now }
    ensures { MatchBool result ((1 ≤ count) × (slice_index text.now 0 ≡ 48 → count ≡ 1))
        ((count ≡ 0) ⊎ ((slice_index text.now 0 ≡ 48) × (1 < count))) }
{
    if count == 0 {
        return false;
    }
    text[0] != b'0' || count == 1
}

// The number that the first line is, at most `most`, and what stands behind it.
#[inline(always)]
pub fn number_last(text: &[u8], most: u64) -> Option<(u64, &[u8])>
    ensures { MatchOption result (LacksLine (read_number most) text.now)
        (λ p. HasLine (read_number most) text.now p.0 p.1.now × (p.0 ≤ most)) }
{
    let Some((n, count)) = digits_first(text, most) else {
        return None;
    };
    if !is_numeral(text, count) {
        return None;
    }
    let after = &text[count..];
    if !is_end(after) {
        return None;
    }
    Some((n, after))
}
