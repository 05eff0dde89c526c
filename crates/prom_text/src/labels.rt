//! Names and labels as the format allows them.
ghost use Rattle.std.specs.Prelude.{◌≡◌, ◌++◌, OnOk, map, codes};
ghost use Rattle.std.specs.List.{flat_map, join_by, list_all};
ghost use Rattle.std.specs.Ordering.{nat_cmp};
ghost use Rattle.std.specs.Cmp.Lexicographic.{slice_cmp};
ghost use Rattle.prom_text.specs.Labels.{printed_byte, printed_name as name_text, label_name as label_name_text};
ghost use Rattle.prom_text.specs.Labels.{begins_with_digit as has_first_digit, escaped_byte, escaped, is_plain_byte};
ghost use Rattle.prom_text.specs.Labels.{label as label_text};

use stat_defs::Tag;
use std::alloc::AllocError;
use std::cmp::Ordering;

fn printed(b: u8) -> u8
    ensures { result ≡ printed_byte b }
{
    match b {
        b'0'..=b'9' | b'A'..=b'Z' | b'a'..=b'z' | b'_' => b,
        _ => b'_',
    }
}

/// How two bytes compare, as they are printed. Equal ones, which most are, need no look.
fn compare_bytes(a: u8, b: u8) -> Ordering
    ensures { result ≡ nat_cmp (printed_byte a) (printed_byte b) }
{
    if a == b {
        return Ordering::Equal;
    }
    printed(a).cmp(&printed(b))
}

/// How two names compare, as they are printed.
#[tactic(auto, using(crate::proofs::Names::compared_at, crate::proofs::Names::compared_ends))]
pub(crate) fn compare_printed(a: &[u8], b: &[u8]) -> Ordering
    ensures { result ≡ slice_cmp nat_cmp (map printed_byte a.now) (map printed_byte b.now) }
{
    for i in 0..a.len().min(b.len()) {
        let order = compare_bytes(a[i], b[i]);
        if order != Ordering::Equal {
            return order;
        }
    }
    a.len().cmp(&b.len())
}

fn put_printed(text: &mut Vec<u8>, bytes: &[u8]) -> Result<(), AllocError>
    ensures { OnOk result (text.new.items ≡ text.old.items ++ map printed_byte bytes.now) }
{
    text.reserve(bytes.len())?;
    for b in bytes {
        text.push_reserved(printed(*b));
    }
    Ok(())
}

/// Appends the name of a metric, of what is left of its full name without its tags.
pub(crate) fn put_name(text: &mut Vec<u8>, extracted: &[u8]) -> Result<(), AllocError>
    ensures { OnOk result (text.new.items ≡ text.old.items ++ name_text extracted.now) }
{
    text.extend_from_slice(b"envoy_")?;
    put_printed(text, extracted)
}

fn begins_with_digit(name: &[u8]) -> bool
    ensures { result ≡ has_first_digit name.now }
{
    match name {
        [first, ..] => b'0' <= *first && *first <= b'9',
        [] => false,
    }
}

fn put_label_name(text: &mut Vec<u8>, name: &[u8]) -> Result<(), AllocError>
    ensures { OnOk result (text.new.items ≡ text.old.items ++ label_name_text name.now) }
{
    if begins_with_digit(name) {
        text.push(b'_')?;
    }
    put_printed(text, name)
}

fn put_escaped_byte(text: &mut Vec<u8>, b: u8) -> Result<(), AllocError>
    ensures { OnOk result (text.new.items ≡ text.old.items ++ escaped_byte b) }
{
    match b {
        b'\\' => text.extend_from_slice(b"\\\\"),
        b'"' => text.extend_from_slice(b"\\\""),
        b'\n' => text.extend_from_slice(b"\\n"),
        _ => text.extend_from_slice(&[b]),
    }
}

fn is_plain(b: u8) -> bool
    ensures { result ≡ is_plain_byte b }
{
    b != b'\\' && b != b'"' && b != b'\n'
}

/// Whether no byte of a value is escaped.
fn are_plain(value: &[u8]) -> bool
    ensures { result ≡ list_all is_plain_byte value.now }
{
    value.iter().all(|b| is_plain(*b))
}

#[tactic(auto, using(crate::proofs::Plain::escaped_plain))]
fn put_escaped(text: &mut Vec<u8>, value: &[u8]) -> Result<(), AllocError>
    ensures { OnOk result (text.new.items ≡ text.old.items ++ escaped value.now) }
{
    if are_plain(value) {
        return text.extend_from_slice(value);
    }
    for b in value {
        put_escaped_byte(text, *b)?;
    }
    Ok(())
}

/// Appends a label.
pub(crate) fn put_label(text: &mut Vec<u8>, tag: &Tag) -> Result<(), AllocError>
    ensures { OnOk result (text.new.items ≡ text.old.items ++ label_text tag.now) }
{
    put_label_name(text, tag.name.bytes())?;
    text.extend_from_slice(b"=\"")?;
    put_escaped(text, tag.value.bytes())?;
    text.push(b'"')?;
    Ok(())
}

fn put_more_labels(text: &mut Vec<u8>, tags: &[Tag]) -> Result<(), AllocError>
    ensures { OnOk result (text.new.items
        ≡ text.old.items ++ flat_map (λ label. codes "," ++ label) (map label_text tags.now)) }
{
    for tag in tags {
        text.push(b',')?;
        put_label(text, tag)?;
    }
    Ok(())
}

/// Appends labels, parted by commas.
pub(crate) fn put_labels(text: &mut Vec<u8>, tags: &[Tag]) -> Result<(), AllocError>
    ensures { OnOk result (text.new.items
        ≡ text.old.items ++ join_by (λ label. label) (codes ",") (map label_text tags.now)) }
{
    let Some((first, others)) = tags.split_first() else {
        return Ok(());
    };
    put_label(text, first)?;
    put_more_labels(text, others)
}
