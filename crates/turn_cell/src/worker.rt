//! The worker's calls. None takes memory, waits or refuses.
ghost use Rattle.std.specs.Prelude.{◌≡◌, ℕ, ◌+◌, ◌≤◌, ◌==◌, true, false};
ghost use Rattle.turn_cell.specs.declared.limits.TheConstants.{MAX_TURNED};
ghost use Rattle.turn_cell.specs.declared.view.TurnKind.TheVariants.{Load, Begin, Give, Leave};
ghost use Rattle.turn_cell.specs.Tokens.{cell_id, worker_known, may_turn, note_known, after_step, with_half, weight_of};

use crate::cell::TurnCell;
use crate::plays::{Beginning, Giving, Leaving, WorkerLoading};
use crate::tokens::{LeftNote, TurnWorker};
use stat_defs::Weighed;

impl<H: Weighed + Drop> TurnCell<H> {
    /// Whether the flusher asks for a half, by one atomic load, which found 1.
    pub fn asked(&self, w: &mut TurnWorker<H>) -> bool
        requires cell { (worker_known w.old).cell ≡ cell_id self.now }
        ensures load { (word : ℕ) × (worker_known w.new ≡ after_step Load word (worker_known w.old))
            × (result ≡ (word == 1)) }
        ensures may_turn { may_turn w.new ≡ result }
    {
        let word = self.table.shared.load::<WorkerLoading>(&mut w.seat, 0);
        word == 1
    }

    /// Turns a half, which the flusher may take from here on, and gives the spare.
    pub fn turn(&self, w: &mut TurnWorker<H>, half: H) -> H
        requires cell { (worker_known w.old).cell ≡ cell_id self.now }
        requires asked { may_turn w.old ≡ true }
        requires weights { weight_of H.weighs (worker_known w.old) + H.weighs half ≤ MAX_TURNED }
        ensures turned { worker_known w.new
            ≡ with_half half (after_step Give 2 (after_step Begin 1 (worker_known w.old))) }
        ensures may_turn { may_turn w.new ≡ false }
        ensures spare { H.weighs result ≡ 0 }
    {
        let shared = &self.table.shared;
        shared.store::<Beginning>(&mut w.seat, 0, 2);
        let spare = shared.exchange(&mut w.seat, 0, Some(half)).unwrap();
        shared.store::<Giving>(&mut w.seat, 0, 3);
        spare
    }

    /// Leaves the cell. A half that was turned and not taken stays in it.
    pub fn leave(&self, w: TurnWorker<H>) -> LeftNote<H>
        requires cell { (worker_known w).cell ≡ cell_id self.now }
        ensures { (word : ℕ) × (note_known result ≡ after_step Leave word (worker_known w)) }
    {
        let TurnWorker { mut seat } = w;
        self.table.shared.fetch_add::<Leaving>(&mut seat, 0, 8);
        LeftNote { seat }
    }
}
