//! The bytes of labels, names and prefixes.
ghost use Rattle.std.specs.Prelude.{◌≡◌};
ghost use Rattle.stat_defs.specs.Names as names;

/// Whether a label may have this byte: a letter, a digit or `_`.
pub fn is_label_byte(b: u8) -> bool
    ensures { result ≡ names.is_label_byte b }
{
    b.is_ascii_alphanumeric() || b == b'_'
}

/// Whether a name may have this byte: it is printable, and no space.
pub fn is_name_byte(b: u8) -> bool
    ensures { result ≡ names.is_name_byte b }
{
    (b'!'..=b'~').contains(&b)
}

/// The text without its last dot, where it ends in one.
pub fn without_dot(text: &[u8]) -> &[u8]
    ensures { result.now ≡ names.without_dot text.now }
{
    if text.ends_with(b".") {
        &text[..text.len() - 1]
    } else {
        text
    }
}
