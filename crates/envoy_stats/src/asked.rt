//! What a call is asked for.
ghost use Rattle.std.specs.Prelude.{option_map};
ghost use Rattle.command_words.specs.Views.{said_as};
ghost use Rattle.envoy_stats.specs.Asks.{Asks};

use command_words::{Command, Load, Reporting};

/// A command that starts threads, or any other words.
#[derive(Drop)]
pub(crate) enum Asked {
    /// `run`
    Run(Reporting),
    /// `load --run`
    Load(Load),
    /// A command that starts none, or words that are no command.
    Quiet(Option<Command>),
}

/// Whether the command that was read starts threads.
pub(crate) fn asked_of(said: Option<Command>) -> Asked
    ensures { Asks (option_map said_as said) result }
{
    let Some(command) = said else {
        return Asked::Quiet(None);
    };
    match command {
        Command::Run(asked) => Asked::Run(asked),
        Command::Replay(asked) => Asked::Quiet(Some(Command::Replay(asked))),
        Command::Check { boot } => Asked::Quiet(Some(Command::Check { boot })),
        Command::Bins { values } => Asked::Quiet(Some(Command::Bins { values })),
        Command::Load(asked) => {
            if asked.run {
                Asked::Load(asked)
            } else {
                Asked::Quiet(Some(Command::Load(asked)))
            }
        }
    }
}
