//! A cell.
ghost use Rattle.std.specs.Prelude.{◌≡◌};

use crate::plays::Exchanging;
use crate::view::TurnView;
use atomic_table::Table;
use stat_defs::Weighed;
use std::alloc::Global;

pub(crate) type Slotted<H> = Table<Option<H>, TurnView<H>, (), Exchanging, Global>;

/// A slot through which a worker and a flusher, which may be in two threads, exchange halves.
#[derive(Drop)]
pub struct TurnCell<H: Weighed> {
    pub(crate) table: Slotted<H>,
    ghost sized: { (table.shared.table_id.words ≡ 1) × (table.shared.table_id.slots ≡ 1) },
}
