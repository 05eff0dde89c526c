//! The rows of symbols.
ghost use Rattle.std.specs.Prelude.{◌≡◌, ◌≤◌, ◌++◌, IfOk, OnOk, map as list_map};
ghost use Rattle.std.specs.List.{flat_map, zip};
ghost use Rattle.stat_defs.specs.Names.{tokens};
ghost use Rattle.stat_name.specs.Spelling.{spelling};
ghost use Rattle.stat_name.specs.StoredName.{data_of, stored};
ghost use Rattle.hex.specs.Hex.{encode_lower};
ghost use Rattle.text_parts.specs.Answer.{IsTextAnswer};
ghost use Rattle.flush_view.specs.Symbols.{kind_word as word_of_kind, mode_told as word_of_mode};
ghost use Rattle.flush_view.specs.Symbols.{symbol_told, symbol_line};
ghost use Rattle.report_text.specs.Parts.{metric_words};

use stat_defs::{Kind, Metric, Mode, NoMemory};
use stat_name::put_number as put_spelling;
use stats_io::{Sink, push_all};
use std::alloc::{AllocError, Global};
use text_parts::{TextFault, push_full, put_number};

fn kind_word(kind: Kind) -> &'static [u8]
    ensures { result.now ≡ word_of_kind kind }
{
    match kind {
        Kind::Counter => b"counter",
        Kind::Gauge => b"gauge",
        Kind::Histogram => b"histogram",
        Kind::Text => b"text",
    }
}

fn mode_word(kind: Kind, mode: Mode) -> &'static [u8]
    ensures { result.now ≡ word_of_mode kind mode }
{
    match kind {
        Kind::Gauge => match mode {
            Mode::Uninit => b"uninit",
            Mode::Accumulate => b"acc",
            Mode::Never => b"never",
        },
        _ => b"-",
    }
}

/// Appends `NAME KIND MODE `.
fn put_words(text: &mut Vec<u8>, metric: &Metric) -> Result<(), AllocError>
    ensures { OnOk result (text.new.items ≡ text.old.items ++ metric_words metric.now) }
{
    text.extend_from_slice(metric.name.bytes())?;
    text.push(b' ')?;
    text.extend_from_slice(kind_word(metric.kind))?;
    text.push(b' ')?;
    text.extend_from_slice(mode_word(metric.kind, metric.mode))?;
    text.push(b' ')?;
    Ok(())
}

/// Appends the spelling of a byte count, of whatever size.
fn put_count(form: &mut Vec<u8>, count: usize) -> Result<(), AllocError>
    ensures { OnOk result (form.new.items ≡ form.old.items ++ spelling count) }
{
    let mut left = count;
    while left >= 128 {
        form.push((left % 128) as u8 + 128)?;
        left /= 128;
    }
    form.push(left as u8)?;
    Ok(())
}

/// The spellings of the numbers, one after the other.
fn spelled(alloc: Global, numbers: &[u32]) -> Result<Vec<u8>, NoMemory>
    ensures { IfOk result (λ spelled. spelled.items ≡ data_of numbers.now) }
{
    let mut spelled = Vec::new(alloc);
    for number in numbers {
        put_spelling(alloc, *number, &mut spelled)?;
    }
    Ok(spelled)
}

/// The name of these numbers, as it is stored.
fn stored_name(alloc: Global, numbers: &[u32]) -> Result<Vec<u8>, NoMemory>
    ensures { IfOk result (λ form. form.items ≡ stored numbers.now) }
{
    let spelled = spelled(alloc, numbers)?;
    let mut form = Vec::new(alloc);
    put_count(&mut form, spelled.len())?;
    form.extend_from_slice(&spelled)?;
    Ok(form)
}

/// Appends the stored name of these numbers in hexadecimal.
fn put_stored(alloc: Global, text: &mut Vec<u8>, numbers: &[u32]) -> Result<(), NoMemory>
    ensures { OnOk result (text.new.items ≡ text.old.items ++ encode_lower (stored numbers.now)) }
{
    let form = stored_name(alloc, numbers)?;
    let digits = hex::encode(alloc, form)?;
    text.extend_from_slice(digits.as_bytes())?;
    Ok(())
}

/// A name cut at its dots.
fn tokens_of<'a>(alloc: Global, name: &'a [u8]) -> Result<Vec<&'a [u8]>, NoMemory>
    ensures { IfOk result (λ cut. list_map (λ token. token.now) cut.items ≡ tokens name.now) }
{
    Ok(name.split(|b| *b == b'.').collect(alloc)?)
}

/// Appends ` NUMBER=TOKEN`.
fn put_symbol(text: &mut Vec<u8>, number: u32, token: &[u8]) -> Result<(), AllocError>
    ensures { OnOk result (text.new.items ≡ text.old.items ++ symbol_told (number, token.now)) }
{
    text.push(b' ')?;
    put_number(text, u64::from(number))?;
    text.push(b'=')?;
    text.extend_from_slice(token)?;
    Ok(())
}

/// Appends each number with the token beside it.
fn put_each(text: &mut Vec<u8>, numbers: &[u32], cut: &[&[u8]]) -> Result<(), AllocError>
    ensures { OnOk result (text.new.items
        ≡ text.old.items ++ flat_map symbol_told (zip numbers.now (list_map (λ token. token.now) cut.now))) }
{
    for (number, token) in numbers.iter().zip(cut) {
        put_symbol(text, *number, token)?;
    }
    Ok(())
}

fn put_symbols(
    alloc: Global,
    text: &mut Vec<u8>,
    numbers: &[u32],
    name: &[u8],
) -> Result<(), NoMemory>
    ensures { OnOk result (text.new.items
        ≡ text.old.items ++ flat_map symbol_told (zip numbers.now (tokens name.now))) }
{
    let cut = tokens_of(alloc, name)?;
    put_each(text, numbers, &cut)?;
    Ok(())
}

/// Appends the line of a metric.
fn put_metric(alloc: Global, text: &mut Vec<u8>, metric: &Metric) -> Result<(), NoMemory>
    ensures { OnOk result (text.new.items ≡ text.old.items ++ symbol_line metric.now) }
{
    put_words(text, metric)?;
    put_stored(alloc, text, metric.numbers.items())?;
    put_symbols(alloc, text, metric.numbers.items(), metric.name.bytes())?;
    text.push(b'\n')?;
    Ok(())
}

/// Writes the line of each metric.
pub(crate) fn write_metrics<O: Sink>(
    alloc: Global,
    metrics: &[&Metric],
    out: &mut O,
) -> Result<(), TextFault>
    ensures answer { IsTextAnswer (O.state out.old) (O.state out.new)
        (flat_map (λ metric. symbol_line metric.now) metrics.now) result }
    ensures later { (O.state out.old).faults ≤ (O.state out.new).faults }
{
    let mut text = Vec::new(alloc);
    for metric in metrics {
        put_metric(alloc, &mut text, metric)?;
        push_full(&mut text, out)?;
    }
    push_all(out, &text)?;
    Ok(())
}
