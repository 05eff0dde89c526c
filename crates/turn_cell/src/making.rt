//! How a cell is made.
ghost use Rattle.std.specs.Prelude.{◌≡◌, [], false, IfOk};
ghost use Rattle.turn_cell.specs.Turned.{turn_view};
ghost use Rattle.turn_cell.specs.Tokens.{cell_id, worker_known, may_turn, idle_known, new_known};

use crate::cell::{Slotted, TurnCell};
use crate::tokens::{FlushIdle, Place, TurnWorker};
use atomic_table::{Refused, Table};
use seat_parts::Deal;
use stat_defs::{NoMemory, Weighed};
use std::alloc::Global;

impl<H: Weighed + Drop> TurnCell<H> {
    /// A cell with a spare, an empty half, and the tokens of its parties.
    pub fn new(
        alloc: Global,
        spare: H,
    ) -> Result<(TurnCell<H>, TurnWorker<H>, FlushIdle<H>), NoMemory>
        requires { H.weighs spare ≡ 0 }
        ensures worker { IfOk result (λ r. (worker_known r.1 ≡ new_known (cell_id r.0))
            × (may_turn r.1 ≡ false)) }
        ensures flusher { IfOk result (λ r. idle_known r.2 ≡ new_known (cell_id r.0)) }
    {
        let mut slots = Vec::with_capacity(alloc, 1)?;
        slots.push_reserved(Some(spare));
        match Table::new(alloc, &[0], slots, &()) {
            Ok((table, seat)) => Ok(deal(table, seat)),
            Err(Refused { slots: _ }) => Err(NoMemory),
        }
    }
}

// The first seat has both parts, and the flusher's is cut off it.
fn deal<H: Weighed + Drop>(
    table: Slotted<H>,
    mut seat: Place<H>,
) -> (TurnCell<H>, TurnWorker<H>, FlushIdle<H>)
    requires table { (table.shared.table_id.words ≡ 1) × (table.shared.table_id.slots ≡ 1) }
    requires seat { (seat.table_id ≡ table.shared.table_id) × (seat.me ≡ (turn_view, [])) }
    ensures worker { (worker_known result.1 ≡ new_known (cell_id result.0)) × (may_turn result.1 ≡ false) }
    ensures flusher { idle_known result.2 ≡ new_known (cell_id result.0) }
{
    let first = table.shared.split_seat::<Deal>(&mut seat);
    (
        TurnCell { table },
        TurnWorker { seat },
        FlushIdle { seat: first },
    )
}
