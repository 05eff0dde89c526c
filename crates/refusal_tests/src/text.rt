//! The text of a row.

use hex::encode;
use stat_defs::{CounterRow, Delta, FlushRecord, FlushView, LastFlush, List, Metric, Txt, Verdict};
use stats_io::{MemSink, push_all};
use statsd_text::write_statsd;
use std::alloc::Global;
use std::test::Fail;
use text_parts::put_number;

/// A sink with room for the text of a row.
pub(crate) fn text_sink(alloc: Global) -> Result<MemSink, Fail> {
    Ok(MemSink::new(alloc, 256, 256, Vec::new(alloc))?)
}

// The rows of a flush's counters. Each has units in it, so it has units at all, and a line.
fn counter_rows(
    alloc: Global,
    metrics: &[Metric],
    deltas: &[Delta],
) -> Result<Vec<CounterRow>, Fail> {
    let mut rows = Vec::new(alloc);
    for delta in deltas {
        if let Some(metric) = metrics.get(delta.id.0 as usize) {
            rows.push(CounterRow {
                name: metric.name.clone()?,
                tagged: metric.tagged.clone()?,
                delta: delta.n,
                total: delta.n,
            })?;
        }
    }
    Ok(rows)
}

/// Writes the counters of a flush behind this line.
pub(crate) fn write_flush(
    alloc: Global,
    head: &str,
    metrics: &[Metric],
    flush: &FlushRecord,
    out: &mut MemSink,
) -> Result<(), Fail> {
    let view = FlushView {
        counters: List::of(counter_rows(alloc, metrics, flush.deltas.items())?),
        gauges: List::of(Vec::new(alloc)),
        texts: List::of(Vec::new(alloc)),
        histograms: List::of(Vec::new(alloc)),
    };
    let prefix = Txt::of(alloc, b"envoy")?;
    push_all(out, head.as_bytes())?;
    Ok(write_statsd(alloc, &view, &prefix, out)?)
}

// The one byte that spells a number below 128.
fn spelled(number: usize) -> Result<u8, Fail> {
    match u8::try_from(number) {
        Ok(byte) if byte < 128 => Ok(byte),
        _ => Err("a number of two bytes")?,
    }
}

// The stored name of numbers below 128 in hexadecimal: how many bytes they take, and one byte for each.
fn stored(alloc: Global, numbers: &[u32]) -> Result<String, Fail> {
    let mut form = Vec::new(alloc);
    form.push(spelled(numbers.len())?)?;
    for number in numbers {
        form.push(spelled(*number as usize)?)?;
    }
    Ok(encode(alloc, form)?)
}

// The line of a counter's symbols.
fn symbols_of(alloc: Global, counter: &Metric) -> Result<Vec<u8>, Fail> {
    let mut line = Vec::new(alloc);
    let numbers = counter.numbers.items();
    line.extend_from_slice(counter.name.bytes())?;
    line.extend_from_slice(b" counter - ")?;
    line.extend_from_slice(stored(alloc, numbers)?.as_bytes())?;
    let mut tokens = counter.name.bytes().split(|b| *b == b'.');
    for number in numbers {
        line.push(b' ')?;
        put_number(&mut line, u64::from(*number))?;
        line.push(b'=')?;
        line.extend_from_slice(tokens.next().unwrap_or(b""))?;
    }
    line.push(b'\n')?;
    Ok(line)
}

/// What the program writes of a store of counters whose one worker had these verdicts, none of them a drop.
pub(crate) fn output(
    alloc: Global,
    end: &LastFlush,
    verdicts: &[Verdict],
) -> Result<MemSink, Fail> {
    let mut out = text_sink(alloc)?;
    let metrics = end.names.metrics.items();
    write_flush(alloc, "# last\n", metrics, &end.last, &mut out)?;
    push_all(&mut out, b"# symbols\n")?;
    for metric in metrics {
        push_all(&mut out, &symbols_of(alloc, metric)?)?;
    }
    let accepted = verdicts.len();
    let line = format!(in alloc; "# worker 1: {accepted} accepted, 0 dropped\n")?;
    push_all(&mut out, line.as_bytes())?;
    Ok(out)
}
