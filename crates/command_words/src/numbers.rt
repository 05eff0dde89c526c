//! The number that a word says.
ghost use Rattle.std.specs.Prelude.{◌≡◌, ◌≢◌, ◌≤◌, ◌<◌, ◌⊎◌, IfSome, length, slice_index};
ghost use Rattle.std.specs.Bool.{MatchBool};
ghost use Rattle.command_words.specs.Command.{number_in, value_in};

// Whether the word begins as a number may: with no sign, and with no zero before other digits.
fn begins_plainly(word: &str) -> bool
    ensures { MatchBool result
        ((slice_index word.now 0 ≢ 43) × (slice_index word.now 0 ≡ 48 → length word.now ≡ 1))
        ((slice_index word.now 0 ≡ 43) ⊎ ((slice_index word.now 0 ≡ 48) × (1 < length word.now))) }
{
    let bytes = word.as_bytes();
    if bytes.is_empty() {
        return true;
    }
    if bytes[0] == b'+' {
        return false;
    }
    bytes[0] != b'0' || bytes.len() == 1
}

/// The value that the word says: decimal digits without a sign and without leading zeros.
pub(crate) fn value_in(word: &str) -> Option<u64>
    ensures { result ≡ value_in word.now }
{
    if !begins_plainly(word) {
        return None;
    }
    word.parse::<u64>().ok()
}

/// The number from `least` to `most` that the word says.
pub(crate) fn number_in(word: &str, least: u32, most: u32) -> Option<u32>
    ensures value { result ≡ number_in least most word.now }
    ensures within { IfSome result (λ n. (least ≤ n) × (n ≤ most)) }
{
    let value = value_in(word)?;
    if value < u64::from(least) || u64::from(most) < value {
        return None;
    }
    Some(value as u32)
}
