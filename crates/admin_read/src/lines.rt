//! The line of a row.
ghost use Rattle.std.specs.Prelude.{◌≡◌, ◌≤◌, ◌++◌, ◌∷◌, [], OnOk, codes};
ghost use Rattle.std.specs.Fmt.{decimal, signed_decimal};
ghost use Rattle.std.specs.List.{All};
ghost use Rattle.text_parts.specs.Histograms.{IsHistogram, AreHistograms};
ghost use Rattle.admin_read.specs.Admin.{named, quoted, quantile_label, value_text, quantile_part, quantiles_text};
ghost use Rattle.admin_read.specs.Admin.{stat_line};
ghost use Rattle.admin_read.specs.Rows.{stat_of, CanBeRead, spaced_parts};

use crate::rows::StatRow;
use stat_defs::{BinCount, CounterRow, GaugeRow, HistRow, TextRow, Txt};
use std::alloc::AllocError;
use text_parts::{put_number, put_signed, put_thousandths, quantile, values_in};

// The quantiles that are shown, in thousandths.
const QUANTILES: [u32; 10] = [0, 250, 500, 750, 900, 950, 990, 995, 999, 1000];

/// Appends `NAME:`.
fn begin_line(text: &mut Vec<u8>, name: &Txt) -> Result<(), AllocError>
    ensures { OnOk result (text.new.items ≡ text.old.items ++ (name.now ++ codes ":")) }
{
    text.extend_from_slice(name.bytes())?;
    text.extend_from_slice(b":")
}

fn put_text(text: &mut Vec<u8>, row: &TextRow) -> Result<(), AllocError>
    ensures { OnOk result (text.new.items ≡ text.old.items ++ named row.now.name (quoted row.now.text)) }
{
    begin_line(text, &row.name)?;
    text.extend_from_slice(b" \"")?;
    text.extend_from_slice(row.text.bytes())?;
    text.extend_from_slice(b"\"\n")
}

fn put_counter(text: &mut Vec<u8>, row: &CounterRow) -> Result<(), AllocError>
    ensures { OnOk result (text.new.items ≡ text.old.items ++ named row.now.name (decimal row.now.total)) }
{
    begin_line(text, &row.name)?;
    text.push(b' ')?;
    put_number(text, row.total)?;
    text.push(b'\n')?;
    Ok(())
}

fn put_gauge(text: &mut Vec<u8>, row: &GaugeRow) -> Result<(), AllocError>
    ensures { OnOk result (text.new.items
        ≡ text.old.items ++ named row.now.name (signed_decimal row.now.value)) }
{
    begin_line(text, &row.name)?;
    text.push(b' ')?;
    put_signed(text, row.value)?;
    text.push(b'\n')?;
    Ok(())
}

fn put_label(text: &mut Vec<u8>, q: u32) -> Result<(), AllocError>
    ensures { OnOk result (text.new.items ≡ text.old.items ++ quantile_label q) }
{
    text.push(b'P')?;
    put_thousandths(text, 100 * u128::from(q))
}

fn put_value(text: &mut Vec<u8>, value: Option<u128>) -> Result<(), AllocError>
    ensures { OnOk result (text.new.items ≡ text.old.items ++ value_text value) }
{
    match value {
        None => text.extend_from_slice(b"nan"),
        Some(value) => put_thousandths(text, value),
    }
}

/// Appends the part of a quantile, which is in thousandths.
fn put_part(
    text: &mut Vec<u8>,
    interval: &[BinCount],
    cumulative: &[BinCount],
    q: u32,
) -> Result<(), AllocError>
    requires interval { IsHistogram interval.now }
    requires cumulative { IsHistogram cumulative.now }
    requires share { q ≤ 1000 }
    ensures { OnOk result (text.new.items ≡ text.old.items ++ quantile_part interval.now cumulative.now q) }
{
    put_label(text, q)?;
    text.push(b'(')?;
    put_value(text, quantile(interval, q))?;
    text.push(b',')?;
    put_value(text, quantile(cumulative, q))?;
    text.push(b')')?;
    Ok(())
}

/// Appends the parts of quantiles, each behind a space.
fn put_parts(
    text: &mut Vec<u8>,
    interval: &[BinCount],
    cumulative: &[BinCount],
    quantiles: &[u32],
) -> Result<(), AllocError>
    requires interval { IsHistogram interval.now }
    requires cumulative { IsHistogram cumulative.now }
    requires shares { All (λ q. q ≤ 1000) quantiles.now }
    ensures { OnOk result (text.new.items
        ≡ text.old.items ++ spaced_parts interval.now cumulative.now quantiles.now) }
{
    for q in quantiles {
        text.push(b' ')?;
        put_part(text, interval, cumulative, *q)?;
    }
    Ok(())
}

/// Appends a space and what a histogram shows.
fn put_quantiles(
    text: &mut Vec<u8>,
    interval: &[BinCount],
    cumulative: &[BinCount],
) -> Result<(), AllocError>
    requires interval { IsHistogram interval.now }
    requires cumulative { IsHistogram cumulative.now }
    ensures { OnOk result (text.new.items
        ≡ text.old.items ++ (32 ∷ quantiles_text interval.now cumulative.now)) }
{
    if values_in(cumulative) == 0 {
        text.extend_from_slice(b" No recorded values")?;
        return Ok(());
    }
    put_parts(text, interval, cumulative, &QUANTILES)
}

fn put_histogram(text: &mut Vec<u8>, row: &HistRow) -> Result<(), AllocError>
    requires { AreHistograms row.now }
    ensures { OnOk result (text.new.items
        ≡ text.old.items ++ named row.now.name (quantiles_text row.now.interval row.now.cumulative)) }
{
    begin_line(text, &row.name)?;
    put_quantiles(text, row.interval.items(), row.cumulative.items())?;
    text.push(b'\n')?;
    Ok(())
}

/// Appends the line of a row.
pub(crate) fn put_row(text: &mut Vec<u8>, row: &StatRow<'_>) -> Result<(), AllocError>
    requires { CanBeRead (stat_of row.now) }
    ensures { OnOk result (text.new.items ≡ text.old.items ++ stat_line (stat_of row.now)) }
{
    match row {
        StatRow::Text(row) => put_text(text, row),
        StatRow::Counter(row) => put_counter(text, row),
        StatRow::Gauge(row) => put_gauge(text, row),
        StatRow::Histogram(row) => put_histogram(text, row),
    }
}
