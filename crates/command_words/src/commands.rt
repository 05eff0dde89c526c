//! The command that words say.
ghost use Rattle.std.specs.Prelude.{◌≡◌, IfOk, map, option_map, string_bytes};
ghost use Rattle.command_words.specs.Command.{bins_of, check_of, command, command_named, has_output_options};
ghost use Rattle.command_words.specs.Command.{load_in, load_of, replaying, reporting_in, running};
ghost use Rattle.command_words.specs.Views.{reporting_as, said_as, sorted_as};

use crate::command::{Command, Load, Reporting};
use crate::numbers::number_in;
use crate::operands::{are_values, format_asked, over_files, values_in};
use crate::sorting::{SortedWords, sorted_words};
use load_scripts::{MAX_SCRIPT_EVENTS, MAX_SCRIPTS};
use output_options::OutputOptions;
use stat_defs::NoMemory;
use std::alloc::Global;

// Whether an option stands among the words that only a run or a replay takes.
fn has_output_options(words: &SortedWords<'_>) -> bool
    ensures { result ≡ has_output_options (sorted_as words.now) }
{
    words.symbols || words.format.is_some()
}

fn reporting_of(alloc: Global, words: &SortedWords<'_>) -> Result<Option<Reporting>, NoMemory>
    ensures { IfOk result (λ o. option_map reporting_as o ≡ reporting_in (sorted_as words.now)) }
{
    if words.run {
        return Ok(None);
    }
    let Some(format) = format_asked(words.format) else {
        return Ok(None);
    };
    let options = OutputOptions {
        format,
        symbols: words.symbols,
    };
    over_files(alloc, options, &words.operands)
}

fn run_of(alloc: Global, words: &SortedWords<'_>) -> Result<Option<Command>, NoMemory>
    ensures { IfOk result (λ o. option_map said_as o ≡ option_map running (reporting_in (sorted_as words.now))) }
{
    match reporting_of(alloc, words)? {
        Some(asked) => Ok(Some(Command::Run(asked))),
        None => Ok(None),
    }
}

fn replay_of(alloc: Global, words: &SortedWords<'_>) -> Result<Option<Command>, NoMemory>
    ensures { IfOk result (λ o. option_map said_as o ≡ option_map replaying (reporting_in (sorted_as words.now))) }
{
    match reporting_of(alloc, words)? {
        Some(asked) => Ok(Some(Command::Replay(asked))),
        None => Ok(None),
    }
}

fn check_of(alloc: Global, words: &SortedWords<'_>) -> Result<Option<Command>, NoMemory>
    ensures { IfOk result (λ o. option_map said_as o ≡ check_of (sorted_as words.now)) }
{
    if has_output_options(words) || words.run {
        return Ok(None);
    }
    let [boot] = words.operands.as_slice() else {
        return Ok(None);
    };
    if boot.is_empty() {
        return Ok(None);
    }
    Ok(Some(Command::Check {
        boot: String::from_str(alloc, boot)?,
    }))
}

fn bins_of(alloc: Global, words: &SortedWords<'_>) -> Result<Option<Command>, NoMemory>
    ensures { IfOk result (λ o. option_map said_as o ≡ bins_of (sorted_as words.now)) }
{
    if has_output_options(words) || words.run {
        return Ok(None);
    }
    if !are_values(&words.operands) {
        return Ok(None);
    }
    Ok(Some(Command::Bins {
        values: values_in(alloc, &words.operands)?,
    }))
}

// `W E`.
fn load_in(run: bool, operands: &[&str]) -> Option<Command>
    ensures { option_map said_as result ≡ load_in run (map (λ w. w.now) operands.now) }
{
    let [scripts, events] = operands else {
        return None;
    };
    let Some(scripts) = number_in(scripts, 1, MAX_SCRIPTS) else {
        return None;
    };
    let Some(events) = number_in(events, 1, MAX_SCRIPT_EVENTS) else {
        return None;
    };
    Some(Command::Load(Load {
        run,
        scripts,
        events,
    }))
}

fn load_of(words: &SortedWords<'_>) -> Option<Command>
    ensures { option_map said_as result ≡ load_of (sorted_as words.now) }
{
    if has_output_options(words) {
        return None;
    }
    load_in(words.run, &words.operands)
}

// The command of that name, with these words behind it.
fn command_named(
    alloc: Global,
    name: &str,
    words: &SortedWords<'_>,
) -> Result<Option<Command>, NoMemory>
    ensures { IfOk result (λ o. option_map said_as o ≡ command_named name.now (sorted_as words.now)) }
{
    match name {
        "run" => run_of(alloc, words),
        "replay" => replay_of(alloc, words),
        "check" => check_of(alloc, words),
        "bins" => bins_of(alloc, words),
        "load" => Ok(load_of(words)),
        _ => Ok(None),
    }
}

/// The command that the words say; `Ok(None)` where they are no command.
///
/// The first word names it. Of the words behind that, those up to the first `--` that begin with `-` and have more bytes
/// are options, and all others are operands. Fails only where memory runs out.
pub fn command_of(alloc: Global, words: &[String]) -> Result<Option<Command>, NoMemory>
    ensures { IfOk result (λ o. option_map said_as o ≡ command (map string_bytes words.now)) }
{
    let [name, rest @ ..] = words else {
        return Ok(None);
    };
    match sorted_words(alloc, rest)? {
        Some(sorted) => command_named(alloc, name, &sorted),
        None => Ok(None),
    }
}
