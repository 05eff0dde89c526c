//! The flusher's calls. None takes memory or waits.
ghost use Rattle.std.specs.Prelude.{◌≡◌, ℕ, ◌≤◌, ◌⊎◌};
ghost use Rattle.turn_cell.specs.declared.view.TurnKind.TheVariants.{Ask, Return};
ghost use Rattle.turn_cell.specs.Tokens.{cell_id, idle_known, waiting_known, holding_known, after_step};
ghost use Rattle.turn_cell.specs.Answers.{MatchRequest, TakeFinds};

use crate::cell::TurnCell;
use crate::plays::{Asking, Collecting, FlusherLoading, Returning, TakingBack};
use crate::tokens::{FlushHolding, FlushIdle, FlushWaiting};
use stat_defs::Weighed;

/// What a request finds: the worker, which is asked now, or that it left.
#[derive(Drop)]
pub enum Request<H> {
    Asked(FlushWaiting<H>),
    Left(FlushIdle<H>),
}

/// What a look for a half finds: a full one; that it was not turned yet, with the word loaded; or that the
/// worker left without one.
#[derive(Drop)]
pub enum Take<H> {
    Full(H, FlushHolding<H>),
    NotYet(FlushWaiting<H>, u64),
    Left(FlushIdle<H>),
}

impl<H: Weighed + Drop> TurnCell<H> {
    /// Asks the worker to turn its half, by one atomic compare and exchange.
    pub fn request(&self, f: FlushIdle<H>) -> Request<H>
        requires cell { (idle_known f).cell ≡ cell_id self.now }
        ensures { MatchRequest result (λ w. waiting_known w ≡ after_step Ask 0 (idle_known f))
            (λ i. idle_known i ≡ after_step Ask 8 (idle_known f)) }
    {
        let FlushIdle { mut seat } = f;
        if self
            .table
            .shared
            .compare_exchange::<Asking>(&mut seat, 0, 0, 1)
            == 0
        {
            Request::Asked(FlushWaiting { seat })
        } else {
            Request::Left(FlushIdle { seat })
        }
    }

    /// Takes the half that was turned, if the word that one atomic load finds tells of one.
    pub fn take(&self, f: FlushWaiting<H>) -> Take<H>
        requires cell { (waiting_known f).cell ≡ cell_id self.now }
        ensures { TakeFinds H.weighs (waiting_known f) result }
    {
        let FlushWaiting { mut seat } = f;
        let shared = &self.table.shared;
        let word = shared.load::<FlusherLoading>(&mut seat, 0);
        if word < 3 {
            Take::NotYet(FlushWaiting { seat }, word)
        } else if word == 9 {
            shared.fetch_sub::<TakingBack>(&mut seat, 0, 1);
            Take::Left(FlushIdle { seat })
        } else {
            shared.fetch_add::<Collecting>(&mut seat, 0, 1);
            let half = shared.exchange(&mut seat, 0, None).unwrap();
            Take::Full(half, FlushHolding { seat })
        }
    }

    /// Gives an empty half back, the worker's next spare.
    pub fn give_back(&self, f: FlushHolding<H>, half: H) -> FlushIdle<H>
        requires cell { (holding_known f).cell ≡ cell_id self.now }
        requires weight { H.weighs half ≡ 0 }
        ensures { (word : ℕ) × ((word ≡ 4) ⊎ (word ≡ 12))
            × (idle_known result ≡ after_step Return word (holding_known f)) }
    {
        let FlushHolding { mut seat } = f;
        let shared = &self.table.shared;
        drop(shared.exchange(&mut seat, 0, Some(half)));
        shared.fetch_sub::<Returning>(&mut seat, 0, 4);
        FlushIdle { seat }
    }
}
