//! Texts that are compared.
ghost use Rattle.std.specs.Prelude.{◌≡◌, ◌+◌, ◌<◌, ◌≤◌, drop, length, nat_eq, take};
ghost use Rattle.std.specs.Cmp.Lexicographic.{pointwise};
ghost use Rattle.std.specs.Int.{from_le_bytes, to_le_bytes, w32, w64};

// The 4 bytes from a place on, as one number.
#[inline(always)]
fn four_at(text: &[u8], at: usize) -> u32
    requires { at + 4 ≤ length text.now }
    ensures value { result ≡ from_le_bytes w32 (take 4 (drop at text.now)) }
    ensures bytes { to_le_bytes w32 result ≡ take 4 (drop at text.now) }
{
    match text[at..].first_chunk::<4>() {
        Some(bytes) => u32::from_le_bytes(*bytes),
        None => unreachable!(),
    }
}

// The 8 bytes from a place on, as one number.
#[inline(always)]
fn eight_at(text: &[u8], at: usize) -> u64
    requires { at + 8 ≤ length text.now }
    ensures value { result ≡ from_le_bytes w64 (take 8 (drop at text.now)) }
    ensures bytes { to_le_bytes w64 result ≡ take 8 (drop at text.now) }
{
    match text[at..].first_chunk::<8>() {
        Some(bytes) => u64::from_le_bytes(*bytes),
        None => unreachable!(),
    }
}

// Whether two texts of one length are equal, which is at most 3.
#[inline(always)]
fn few_equal(a: &[u8], b: &[u8]) -> bool
    requires alike { length a.now ≡ length b.now }
    requires few { length a.now < 4 }
    ensures { result ≡ pointwise nat_eq a.now b.now }
{
    let count = a.len();
    if count == 0 {
        return true;
    }
    let (middle, last) = (count / 2, count - 1);
    (a[0] == b[0]) & (a[middle] == b[middle]) & (a[last] == b[last])
}

// The same of 4 to 8 bytes: the first four and the last four are all.
#[inline(always)]
fn fours_equal(a: &[u8], b: &[u8]) -> bool
    requires alike { length a.now ≡ length b.now }
    requires within { 4 ≤ length a.now }
    requires covered { length a.now ≤ 8 }
    ensures { result ≡ pointwise nat_eq a.now b.now }
{
    let last = a.len() - 4;
    four_at(a, 0) == four_at(b, 0) && four_at(a, last) == four_at(b, last)
}

// The same of 8 to 16 bytes.
#[inline(always)]
fn eights_equal(a: &[u8], b: &[u8]) -> bool
    requires alike { length a.now ≡ length b.now }
    requires within { 8 ≤ length a.now }
    requires covered { length a.now ≤ 16 }
    ensures { result ≡ pointwise nat_eq a.now b.now }
{
    let last = a.len() - 8;
    eight_at(a, 0) == eight_at(b, 0) && eight_at(a, last) == eight_at(b, last)
}

// The same of 16 to 32 bytes.
#[inline(always)]
fn sixteens_equal(a: &[u8], b: &[u8]) -> bool
    requires alike { length a.now ≡ length b.now }
    requires within { 16 ≤ length a.now }
    requires covered { length a.now ≤ 32 }
    ensures { result ≡ pointwise nat_eq a.now b.now }
{
    let last = a.len() - 16;
    eights_equal(&a[..16], &b[..16]) && eights_equal(&a[last..], &b[last..])
}

/// Whether two texts are equal. Short ones are compared by few loads, whatever their length.
#[inline(always)]
pub(crate) fn texts_equal(a: &[u8], b: &[u8]) -> bool
    ensures { result ≡ pointwise nat_eq a.now b.now }
{
    if a.len() != b.len() {
        return false;
    }
    match a.len() {
        0..4 => few_equal(a, b),
        4..=8 => fours_equal(a, b),
        9..=16 => eights_equal(a, b),
        17..=32 => sixteens_equal(a, b),
        _ => a == b,
    }
}
