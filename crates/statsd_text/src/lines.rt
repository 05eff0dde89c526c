//! The lines of a row.
ghost use Rattle.std.specs.Prelude.{◌≡◌, ◌∷◌, ◌++◌, [], OnOk, map};
ghost use Rattle.statsd_text.specs.Statsd.{plain_byte, stat_line, gauge_line};
ghost use Rattle.statsd_text.specs.Parts.{shown_counter};

use stat_defs::{CounterRow, GaugeRow};
use std::alloc::AllocError;
use text_parts::{put_number, put_signed};

fn plain(b: u8) -> u8
    ensures { result ≡ plain_byte b }
{
    if b == b':' || b == b'|' { b'_' } else { b }
}

fn put_plain(text: &mut Vec<u8>, bytes: &[u8]) -> Result<(), AllocError>
    ensures { OnOk result (text.new.items ≡ text.old.items ++ map plain_byte bytes.now) }
{
    text.reserve(bytes.len())?;
    for b in bytes {
        text.push_reserved(plain(*b));
    }
    Ok(())
}

/// Appends `PREFIX.NAME:`.
fn begin_line(text: &mut Vec<u8>, prefix: &[u8], name: &[u8]) -> Result<(), AllocError>
    ensures { OnOk result (text.new.items ≡ text.old.items ++ stat_line prefix.now name.now []) }
{
    put_plain(text, prefix)?;
    text.push(b'.')?;
    put_plain(text, name)?;
    text.push(b':')?;
    Ok(())
}

/// Appends the line of a counter, or nothing where its total is 0.
pub(crate) fn put_counter(
    text: &mut Vec<u8>,
    prefix: &[u8],
    row: &CounterRow,
) -> Result<(), AllocError>
    ensures { OnOk result (text.new.items ≡ text.old.items ++ shown_counter prefix.now row.now) }
{
    if row.total == 0 {
        return Ok(());
    }
    begin_line(text, prefix, row.name.bytes())?;
    put_number(text, row.delta)?;
    text.extend_from_slice(b"|c\n")
}

/// Appends the line of a gauge.
pub(crate) fn put_gauge(text: &mut Vec<u8>, prefix: &[u8], row: &GaugeRow) -> Result<(), AllocError>
    ensures { OnOk result (text.new.items ≡ text.old.items ++ gauge_line prefix.now row.now) }
{
    begin_line(text, prefix, row.name.bytes())?;
    put_signed(text, row.value)?;
    text.extend_from_slice(b"|g\n")
}
