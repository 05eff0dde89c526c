//! What `clap` is told of the words.
ghost use Rattle.std.specs.Prelude.{◌≡◌, false, IfOk, codes};
ghost use Rattle.clap.specs.Words.{app_of, rule_of};
ghost use Rattle.command_words.specs.Options as told;

use clap::{Arg, ArgAction, Command};
use std::alloc::{AllocError, Global};

// An option that has no value.
fn flag<'a>(alloc: Global, name: &'a str) -> Arg<'a>
    ensures rule { rule_of result ≡ told.flag name.entry.now }
    ensures local { result.global ≡ false }
{
    Arg::new(alloc, name).long(name).action(ArgAction::SetTrue)
}

// An option that has a value.
fn valued<'a>(alloc: Global, name: &'a str) -> Arg<'a>
    ensures rule { rule_of result ≡ told.valued name.entry.now }
    ensures local { result.global ≡ false }
{
    Arg::new(alloc, name).long(name).action(ArgAction::Set)
}

// All operands: each is a value of its own, since an option may stand between two of them.
fn operands<'a>(alloc: Global) -> Arg<'a>
    ensures rule { rule_of result ≡ told.operands }
    ensures local { result.global ≡ false }
{
    Arg::new(alloc, "operands").action(ArgAction::Append)
}

// Neither the name of the program nor `--help` and `--version` are words of it.
fn bare<'a>(alloc: Global) -> Command<'a>
    ensures { app_of result ≡ told.bare }
{
    Command::new(alloc, "envoy_stats")
        .no_binary_name(true)
        .disable_help_flag(true)
        .disable_version_flag(true)
}

/// The options of all commands, and operands. Which of them a command takes is its own test.
pub(crate) fn app<'a>(alloc: Global) -> Result<Command<'a>, AllocError>
    ensures { IfOk result (λ app. app_of app ≡ told.app) }
{
    let app = bare(alloc)
        .arg(flag(alloc, "symbols"))?
        .arg(flag(alloc, "run"))?
        .arg(valued(alloc, "format"))?
        .arg(operands(alloc))?;
    Ok(app)
}
