//! The statuses of a call.
ghost use Rattle.std.specs.Prelude.{◌≡◌, map};
ghost use Rattle.stats_commands.specs.Outcome.{status_of, status_of_all};

use stat_defs::{FileEnd, WorkerEnd};

/// Every file was read to its end, and all was written.
pub const DONE: u8 = 0;

/// The words are no command.
pub const NO_COMMAND: u8 = 1;

/// The bootstrap breaks its rules, or a pattern of it was refused.
pub const BAD_BOOT: u8 = 2;

/// A file has a line of no meaning, or passes a limit.
pub const BAD_FILE: u8 = 3;

/// A file, or the bootstrap, could not be opened or not be read on.
pub const UNREADABLE: u8 = 4;

/// A push on the output failed.
pub const UNWRITTEN: u8 = 5;

/// Memory was wanting.
pub const NO_MEMORY: u8 = 6;

// The numbers that a shell sees: contracts have them by name.
const _: () = prove!(DONE == 0 && NO_COMMAND == 1 && BAD_BOOT == 2 && BAD_FILE == 3);

const _: () = prove!(UNREADABLE == 4 && UNWRITTEN == 5 && NO_MEMORY == 6);

fn status_of(end: FileEnd) -> u8
    ensures { result ≡ status_of end }
{
    match end {
        FileEnd::Whole => DONE,
        FileEnd::BadLine(_) | FileEnd::LineTooLong(_) | FileEnd::TooBig | FileEnd::TooMany => {
            BAD_FILE
        }
        FileEnd::ReadFault | FileEnd::NotOpened => UNREADABLE,
    }
}

/// The status of the first file that was not read whole.
pub fn status_of_all(ends: &[WorkerEnd]) -> u8
    ensures { result ≡ status_of_all (map (λ end. end.end) ends.now) }
{
    for end in ends {
        let status = status_of(end.end);
        if status != DONE {
            return status;
        }
    }
    DONE
}
