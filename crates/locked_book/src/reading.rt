//! What a seat reads of the changes of names.
ghost use Rattle.std.specs.Prelude.{◌≡◌, ◌<◌, ◌≤◌, All, IfOk, OnErr, length};
ghost use Rattle.stat_defs.specs.Changes.{id_of};
ghost use Rattle.book_state.specs.declared.limits.TheConstants.{MAX_METRICS};
ghost use Rattle.book_lock.specs.History.{Reads};
ghost use Rattle.locked_book.specs.Sharing.{IsSeatOf, part_of, names_by, LooksOnly};

use crate::shared::{LockedBook, SharedBook};
use stat_defs::{NameOp, NoMemory};

impl LockedBook {
    /// Appends the book's published changes of names from this number on, in order, and gives the number of all. It
    /// does not wait, and takes time in the changes that it appends. Where there is no memory, nothing is appended.
    pub fn read_changes(
        &mut self,
        book: &SharedBook,
        from: u32,
        into: &mut Vec<NameOp>,
    ) -> Result<u32, NoMemory>
        requires seat { IsSeatOf book.now self.old }
        requires from { from ≤ length (names_by self.old) }
        ensures seat { IsSeatOf book.now self.new }
        ensures reads { IfOk result (λ n. Reads from n into.old.items into.new.items (part_of self.old)
            (part_of self.new)) }
        ensures metrics { IfOk result (λ n. All (λ c. id_of c < MAX_METRICS) (names_by self.new)) }
        ensures kept { OnErr result (into.new.items ≡ into.old.items) }
        ensures load { OnErr result (LooksOnly (part_of self.old) (part_of self.new)) }
    {
        book.lock.read_changes(&mut self.seat, from, into)
    }
}
