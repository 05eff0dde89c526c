//! A bank of gauges, of one word each, which has a cache line of its own.
ghost use Rattle.std.specs.Prelude.{◌≡◌, ◌*◌, ◌<◌};

use crate::gauge_plays::Gauging;
use crate::gauge_view::{GaugeKey, GaugeView};
use atomic_table::{Seat, Table};
use std::alloc::Global;

/// Gauges, in two's complement, that a bank's seats add to, subtract from, set and read.
#[derive(Drop)]
pub struct GaugeBank {
    pub(crate) table: Table<(), GaugeView, GaugeKey, Gauging, Global>,
    ghost sized: { (table.shared.table_id.words ≡ 8 * table.shared.key.size) × (table.shared.table_id.slots ≡ 0)
        × (0 < table.shared.key.size) },
}

pub(crate) type GaugePlace = Seat<(), GaugeView>;
