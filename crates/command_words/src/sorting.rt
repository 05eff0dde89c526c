//! The words behind the name of a command, sorted into options and operands.
ghost use Rattle.std.specs.Prelude.{◌≡◌, [], IfOk, Some, None, MatchOption, codes, map, option_map, string_bytes, unwrap_or};
ghost use Rattle.clap.specs.Words.{all_of, found_of, rows_of};
ghost use Rattle.command_words.specs.Options.{IsSaid};
ghost use Rattle.command_words.specs.Sorted.{Sorted, sorted};
ghost use Rattle.command_words.specs.Views.{sorted_as};

use crate::options::app;
use clap::ArgMatches;
use clap::error::ErrorKind;
use stat_defs::NoMemory;
use std::alloc::Global;

/// Words by what they are.
#[derive(Drop)]
pub(crate) struct SortedWords<'a> {
    pub symbols: bool,
    pub run: bool,
    pub format: Option<&'a str>,
    pub operands: Vec<&'a str>,
}

// What `clap` finds in the words, or nothing where it refuses them.
fn matches_of<'a>(alloc: Global, words: &'a [String]) -> Result<Option<ArgMatches<'a>>, NoMemory>
    ensures { IfOk result (λ o. MatchOption o (sorted (map string_bytes words.entry.now) ≡ None) (λ m. (s : Sorted)
        × (sorted (map string_bytes words.entry.now) ≡ Some s) × IsSaid (rows_of (found_of m)) s)) }
{
    match app(alloc)?.try_get_matches_from(words) {
        Ok(matches) => Ok(Some(matches)),
        Err(error) => {
            if error.kind() == ErrorKind::OutOfMemory {
                Err(NoMemory)
            } else {
                Ok(None)
            }
        }
    }
}

// All operands.
fn operands_in<'a>(alloc: Global, matches: &ArgMatches<'a>) -> Result<Vec<&'a str>, NoMemory>
    ensures { IfOk result (λ operands. map (λ w. w.now) operands.items
        ≡ unwrap_or (all_of (codes "operands") (rows_of (found_of matches.now))) []) }
{
    match matches.get_raw("operands") {
        Some(operands) => Ok(operands.to_vec(alloc)?),
        None => Ok(Vec::new(alloc)),
    }
}

// What the matches say.
fn words_in<'a>(alloc: Global, matches: &ArgMatches<'a>) -> Result<SortedWords<'a>, NoMemory>
    ensures { (s : Sorted) → IsSaid (rows_of (found_of matches.now)) s → IfOk result (λ words. sorted_as words ≡ s) }
{
    Ok(SortedWords {
        symbols: matches.get_flag("symbols"),
        run: matches.get_flag("run"),
        format: matches.get_str("format"),
        operands: operands_in(alloc, matches)?,
    })
}

/// The words by what they are, or nothing where an option is unknown, stands twice or lacks its value.
pub(crate) fn sorted_words<'a>(
    alloc: Global,
    words: &'a [String],
) -> Result<Option<SortedWords<'a>>, NoMemory>
    ensures { IfOk result (λ o. option_map sorted_as o ≡ sorted (map string_bytes words.entry.now)) }
{
    match matches_of(alloc, words)? {
        Some(matches) => Ok(Some(words_in(alloc, &matches)?)),
        None => Ok(None),
    }
}
