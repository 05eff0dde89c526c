//! A bank of counters, of two words each, which have a cache line of their own.
ghost use Rattle.std.specs.Prelude.{◌≡◌, ◌*◌, ◌<◌};

use crate::counter_plays::Counting;
use crate::counter_view::{BankKey, CountView};
use atomic_table::Table;
use std::alloc::Global;

/// Counters that a bank's seats add to, latch and read. The seats may be with as many threads.
#[derive(Drop)]
pub struct CounterBank {
    pub(crate) table: Table<(), CountView, BankKey, Counting, Global>,
    ghost sized: { (table.shared.table_id.words ≡ 8 * table.shared.key.size) × (table.shared.table_id.slots ≡ 0)
        × (0 < table.shared.key.size) },
}
