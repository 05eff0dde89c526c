//! What a label, a name, a prefix and a text readout may be, as whole texts.
ghost use Rattle.std.specs.Prelude.{◌≡◌};
ghost use Rattle.std.specs.Bool.{Decides};
ghost use Rattle.std.specs.List.{list_all};
ghost use Rattle.stat_defs.specs.Names as names;
ghost use Rattle.stat_defs.specs.Names.{IsLabel, IsLocalName};
ghost use Rattle.stat_defs.specs.Events.{IsReadout, IsOpenedPrefix};
ghost use Rattle.checked_events.specs.Parts.{has_room_for_dot as room};

use stat_defs::{MAX_LABEL_BYTES, MAX_NAME_BYTES, is_label_byte, is_name_byte};

fn has_label_bytes(text: &[u8]) -> bool
    ensures { result ≡ list_all names.is_label_byte text.now }
{
    text.iter().all(|b| is_label_byte(*b))
}

fn has_name_bytes(text: &[u8]) -> bool
    ensures { result ≡ list_all names.is_name_byte text.now }
{
    text.iter().all(|b| is_name_byte(*b))
}

pub(crate) fn label_fits(text: &[u8]) -> bool
    ensures { Decides result (IsLabel text.now) }
{
    !text.is_empty() && text.len() <= MAX_LABEL_BYTES && has_label_bytes(text)
}

pub(crate) fn name_fits(text: &[u8]) -> bool
    ensures { Decides result (IsLocalName text.now) }
{
    !text.is_empty() && text.len() <= MAX_NAME_BYTES && has_name_bytes(text)
}

// There is room for the dot that is written behind a final one.
fn has_room_for_dot(text: &[u8]) -> bool
    ensures { result ≡ room text.now }
{
    !text.ends_with(b".") || text.len() < MAX_NAME_BYTES
}

pub(crate) fn prefix_fits(text: &[u8]) -> bool
    ensures { Decides result (IsOpenedPrefix text.now) }
{
    text.len() <= MAX_NAME_BYTES
        && has_name_bytes(text)
        && has_room_for_dot(text)
        && text != b"-".as_slice()
}

// A space, or another printable byte.
fn is_printable_byte(b: u8) -> bool
    ensures { result ≡ names.is_printable_byte b }
{
    (b' '..=b'~').contains(&b)
}

fn has_printable_bytes(text: &[u8]) -> bool
    ensures { result ≡ list_all names.is_printable_byte text.now }
{
    text.iter().all(|b| is_printable_byte(*b))
}

pub(crate) fn readout_fits(text: &[u8]) -> bool
    ensures { Decides result (IsReadout text.now) }
{
    has_printable_bytes(text)
}

/// Whether a scope may have this label: 1 to 32 letters, digits and low lines.
pub fn is_label(text: &str) -> bool
    ensures { Decides result (IsLabel text.now) }
{
    label_fits(text.as_bytes())
}

/// Whether a metric may have this name in its scope: 1 to 255 printable bytes without spaces.
pub fn is_local_name(text: &str) -> bool
    ensures { Decides result (IsLocalName text.now) }
{
    name_fits(text.as_bytes())
}

/// Whether a scope may be opened with this prefix: at most 255 printable bytes without spaces, or 254 where the last is
/// a dot, and not `-`, which stands for the empty prefix in a line.
pub fn is_prefix(text: &str) -> bool
    ensures { Decides result (IsOpenedPrefix text.now) }
{
    prefix_fits(text.as_bytes())
}

/// Whether a text readout may hold this text: printable bytes and spaces, or nothing.
pub fn is_readout(text: &str) -> bool
    ensures { Decides result (IsReadout text.now) }
{
    readout_fits(text.as_bytes())
}
