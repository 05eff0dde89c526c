//! The lines of a row.
ghost use Rattle.std.specs.Prelude.{◌≡◌, ◌++◌, ◌∷◌, [], OnOk, codes, map};
ghost use Rattle.std.specs.Fmt.{decimal, signed_decimal};
ghost use Rattle.std.specs.List.{flat_map};
ghost use Rattle.text_parts.specs.Decimals.{halves, twentieths};
ghost use Rattle.text_parts.specs.Histograms.{IsHistogram};
ghost use Rattle.prom_text.specs.Labels.{printed_name, label as label_text, braced};
ghost use Rattle.prom_text.specs.Members.{kind_word as word_of};
ghost use Rattle.prom_text.specs.Prometheus.{sample, labels_of, bound_line, histogram_lines, member_lines, type_line};
ghost use Rattle.prom_text.specs.Prometheus.{HasHistogram};
ghost use Rattle.prom_text.specs.Rows.{member_of, bucket_begin, bucket_end, bucket_lines};

use crate::labels::{put_label, put_labels, put_name};
use crate::rows::Row;
use stat_defs::{Bound, CounterRow, GaugeRow, HistRow, Tag, Tagged};
use std::alloc::{AllocError, Global};
use text_parts::{
    put_halves, put_number, put_signed, put_twentieths, sum_twentieths, values_in, values_up_to,
};

/// Appends ` VALUE` for a number and ends the line.
fn end_with_number(text: &mut Vec<u8>, n: u64) -> Result<(), AllocError>
    ensures { OnOk result (text.new.items ≡ text.old.items ++ 32 ∷ (decimal n ++ 10 ∷ [])) }
{
    text.push(b' ')?;
    put_number(text, n)?;
    text.push(b'\n')?;
    Ok(())
}

/// Appends `{LABELS}`.
fn put_braced(text: &mut Vec<u8>, tagged: &Tagged) -> Result<(), AllocError>
    ensures { OnOk result (text.new.items ≡ text.old.items ++ braced (labels_of tagged.now)) }
{
    text.push(b'{')?;
    put_labels(text, tagged.tags.items())?;
    text.push(b'}')?;
    Ok(())
}

fn put_counter(text: &mut Vec<u8>, row: &CounterRow) -> Result<(), AllocError>
    ensures { OnOk result (text.new.items ≡ text.old.items
        ++ sample (printed_name row.now.tagged.extracted) (labels_of row.now.tagged)
        (decimal row.now.total)) }
{
    put_name(text, row.tagged.extracted.bytes())?;
    put_braced(text, &row.tagged)?;
    end_with_number(text, row.total)
}

fn put_gauge(text: &mut Vec<u8>, row: &GaugeRow) -> Result<(), AllocError>
    ensures { OnOk result (text.new.items ≡ text.old.items
        ++ sample (printed_name row.now.tagged.extracted) (labels_of row.now.tagged)
        (signed_decimal row.now.value)) }
{
    put_name(text, row.tagged.extracted.bytes())?;
    put_braced(text, &row.tagged)?;
    text.push(b' ')?;
    put_signed(text, row.value)?;
    text.push(b'\n')?;
    Ok(())
}

fn put_labels_before(text: &mut Vec<u8>, tags: &[Tag]) -> Result<(), AllocError>
    ensures { OnOk result (text.new.items
        ≡ text.old.items ++ flat_map (λ label. label ++ codes ",") (map label_text tags.now)) }
{
    for tag in tags {
        put_label(text, tag)?;
        text.push(b',')?;
    }
    Ok(())
}

/// Appends a bucket's line up to its bound.
fn begin_bucket(text: &mut Vec<u8>, tagged: &Tagged) -> Result<(), AllocError>
    ensures { OnOk result (text.new.items ≡ text.old.items ++ bucket_begin tagged.now) }
{
    put_name(text, tagged.extracted.bytes())?;
    text.extend_from_slice(b"_bucket{")?;
    put_labels_before(text, tagged.tags.items())?;
    text.extend_from_slice(b"le=\"")
}

/// Appends a bucket's line from its bound on.
fn end_bucket(text: &mut Vec<u8>, count: u64) -> Result<(), AllocError>
    ensures { OnOk result (text.new.items ≡ text.old.items ++ bucket_end count) }
{
    text.extend_from_slice(b"\"}")?;
    end_with_number(text, count)
}

/// Appends the line of a bound's bucket, of which the begin is given.
fn put_bucket(
    text: &mut Vec<u8>,
    begin: &[u8],
    row: &HistRow,
    bound: Bound,
) -> Result<(), AllocError>
    requires histogram { IsHistogram row.now.cumulative }
    requires begin { begin.now ≡ bucket_begin row.now.tagged }
    ensures { OnOk result (text.new.items ≡ text.old.items ++ bound_line row.now bound) }
{
    text.extend_from_slice(begin)?;
    put_halves(text, bound.halves)?;
    end_bucket(text, values_up_to(row.cumulative.items(), bound))?;
    Ok(())
}

/// Appends the line of the bucket of all values, of which the begin is given.
fn put_last_bucket(text: &mut Vec<u8>, begin: &[u8], count: u64) -> Result<(), AllocError>
    ensures { OnOk result (text.new.items
        ≡ text.old.items ++ (begin.now ++ (codes "+Inf" ++ bucket_end count))) }
{
    text.extend_from_slice(begin)?;
    text.extend_from_slice(b"+Inf")?;
    end_bucket(text, count)
}

fn put_bounds(text: &mut Vec<u8>, begin: &[u8], row: &HistRow) -> Result<(), AllocError>
    requires histogram { IsHistogram row.now.cumulative }
    requires begin { begin.now ≡ bucket_begin row.now.tagged }
    ensures { OnOk result (text.new.items ≡ text.old.items ++ flat_map (bound_line row.now) row.now.bounds) }
{
    for bound in row.bounds.items() {
        put_bucket(text, begin, row, *bound)?;
    }
    Ok(())
}

/// Appends the lines of all buckets, which begin alike.
fn put_buckets(
    alloc: Global,
    text: &mut Vec<u8>,
    row: &HistRow,
    count: u64,
) -> Result<(), AllocError>
    requires { IsHistogram row.now.cumulative }
    ensures { OnOk result (text.new.items ≡ text.old.items ++ bucket_lines row.now count) }
{
    let mut begin = Vec::new(alloc);
    begin_bucket(&mut begin, &row.tagged)?;
    put_bounds(text, &begin, row)?;
    put_last_bucket(text, &begin, count)?;
    Ok(())
}

fn put_sum(text: &mut Vec<u8>, tagged: &Tagged, sum: u128) -> Result<(), AllocError>
    ensures { OnOk result (text.new.items ≡ text.old.items
        ++ sample (printed_name tagged.now.extracted ++ codes "_sum") (labels_of tagged.now)
        (twentieths sum)) }
{
    put_name(text, tagged.extracted.bytes())?;
    text.extend_from_slice(b"_sum")?;
    put_braced(text, tagged)?;
    text.push(b' ')?;
    put_twentieths(text, sum)?;
    text.push(b'\n')?;
    Ok(())
}

fn put_count(text: &mut Vec<u8>, tagged: &Tagged, count: u64) -> Result<(), AllocError>
    ensures { OnOk result (text.new.items ≡ text.old.items
        ++ sample (printed_name tagged.now.extracted ++ codes "_count") (labels_of tagged.now)
        (decimal count)) }
{
    put_name(text, tagged.extracted.bytes())?;
    text.extend_from_slice(b"_count")?;
    put_braced(text, tagged)?;
    end_with_number(text, count)
}

fn put_histogram(alloc: Global, text: &mut Vec<u8>, row: &HistRow) -> Result<(), AllocError>
    requires { IsHistogram row.now.cumulative }
    ensures { OnOk result (text.new.items ≡ text.old.items ++ histogram_lines row.now) }
{
    let counts = row.cumulative.items();
    let count = values_in(counts);
    put_buckets(alloc, text, row, count)?;
    put_sum(text, &row.tagged, sum_twentieths(counts))?;
    put_count(text, &row.tagged, count)
}

/// Appends the lines of a row.
pub(crate) fn put_row(alloc: Global, text: &mut Vec<u8>, row: &Row<'_>) -> Result<(), AllocError>
    requires { HasHistogram (member_of row.now) }
    ensures { OnOk result (text.new.items ≡ text.old.items ++ member_lines (member_of row.now)) }
{
    match row {
        Row::Counter(row) => put_counter(text, row),
        Row::Gauge(row) => put_gauge(text, row),
        Row::Histogram(row) => put_histogram(alloc, text, row),
    }
}

fn kind_word(row: &Row<'_>) -> &'static str
    ensures { result.now ≡ word_of (member_of row.now) }
{
    match row {
        Row::Counter(_) => "counter",
        Row::Gauge(_) => "gauge",
        Row::Histogram(_) => "histogram",
    }
}

/// Appends the line that says the kind of a name.
pub(crate) fn put_type(text: &mut Vec<u8>, row: &Row<'_>) -> Result<(), AllocError>
    ensures { OnOk result (text.new.items ≡ text.old.items ++ type_line (member_of row.now)) }
{
    text.extend_from_slice(b"# TYPE ")?;
    put_name(text, row.tagged().extracted.bytes())?;
    text.push(b' ')?;
    text.extend_from_slice(kind_word(row).as_bytes())?;
    text.push(b'\n')?;
    Ok(())
}
