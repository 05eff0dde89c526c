//! What operands name.
ghost use Rattle.std.specs.Prelude.{◌≡◌, ◌≤◌, IfOk, is_some, length, map, nat_lt, true, option_map, string_bytes};
ghost use Rattle.std.specs.List.{filter_map, list_all};
ghost use Rattle.command_words.specs.Command.{are_files, are_values, format_asked, format_in, over_files, value_in};
ghost use Rattle.command_words.specs.Views.{reporting_as};
ghost use Rattle.file_reading.specs.declared.limits.TheConstants as limits;

use crate::command::Reporting;
use crate::limits::MAX_VALUES;
use crate::numbers::value_in;
use file_reading::MAX_FILES;
use output_options::{Format, OutputOptions};
use stat_defs::NoMemory;
use std::alloc::Global;

// The format that the word names.
fn format_in(word: &str) -> Option<Format>
    ensures { result ≡ format_in word.now }
{
    match word {
        "statsd" => Some(Format::Statsd),
        "prom" => Some(Format::Prom),
        "admin" => Some(Format::Admin),
        _ => None,
    }
}

/// The format that was asked for; usually StatsD.
pub(crate) fn format_asked(name: Option<&str>) -> Option<Format>
    ensures { result ≡ format_asked (option_map (λ w. w.now) name.entry) }
{
    match name {
        Some(name) => format_in(name),
        None => Some(Format::Statsd),
    }
}

// Whether none of the words is empty.
fn are_filled(words: &[&str]) -> bool
    ensures { result ≡ list_all (λ w. nat_lt 0 (length w.now)) words.now }
{
    words.iter().all(|word| !word.is_empty())
}

// The words, copied.
fn copied(alloc: Global, words: &[&str]) -> Result<Vec<String>, NoMemory>
    ensures { IfOk result (λ copies. map string_bytes copies.items ≡ map (λ w. w.now) words.now) }
{
    let mut copies = Vec::new(alloc);
    for word in words {
        copies.push(String::from_str(alloc, word)?)?;
    }
    Ok(copies)
}

// Whether these may be the files of one command.
fn are_files(words: &[&str]) -> bool
    ensures files { result ≡ are_files (map (λ w. w.now) words.now) }
    ensures few { result ≡ true → (1 ≤ length words.now) × (length words.now ≤ limits.MAX_FILES) }
{
    if words.is_empty() || MAX_FILES < words.len() {
        return false;
    }
    are_filled(words)
}

/// What a run or a replay of this bootstrap and these files is asked for.
pub(crate) fn over_files(
    alloc: Global,
    options: OutputOptions,
    words: &[&str],
) -> Result<Option<Reporting>, NoMemory>
    ensures { IfOk result (λ o. option_map reporting_as o ≡ over_files options (map (λ w. w.now) words.now)) }
{
    let [boot, files @ ..] = words else {
        return Ok(None);
    };
    if boot.is_empty() || !are_files(files) {
        return Ok(None);
    }
    Ok(Some(Reporting {
        options,
        boot: String::from_str(alloc, boot)?,
        files: copied(alloc, files)?,
    }))
}

// Whether all words say values.
fn are_value_words(words: &[&str]) -> bool
    ensures { result ≡ list_all (λ w. is_some (value_in w.now)) words.now }
{
    words.iter().all(|word| value_in(word).is_some())
}

/// Whether these are the values of one command.
pub(crate) fn are_values(words: &[&str]) -> bool
    ensures { result ≡ are_values (map (λ w. w.now) words.now) }
{
    if words.is_empty() || MAX_VALUES < words.len() {
        return false;
    }
    are_value_words(words)
}

// The values of the words, one by one.
fn each_value(alloc: Global, words: &[&str]) -> Result<Vec<u64>, NoMemory>
    ensures { IfOk result (λ values. values.items ≡ filter_map (λ w. value_in w.now) words.now) }
{
    Ok(
        words
            .iter()
            .filter_map(|word| value_in(word))
            .collect(alloc)?,
    )
}

/// The values that the words say.
pub(crate) fn values_in(alloc: Global, words: &[&str]) -> Result<Vec<u64>, NoMemory>
    ensures { IfOk result (λ values. values.items ≡ filter_map value_in (map (λ w. w.now) words.now)) }
{
    each_value(alloc, words)
}
