//! The rule of a cell's word and slot, and what each kind of step on the word tells.
ghost use Rattle.turn_cell.specs.Turned.{Turned, turn_view};
ghost use Rattle.turn_cell.specs.Steps.{WorkerLoads, FlusherLoads, Asks, Begins, Gives, Collects, Returns, TakesBack};
ghost use Rattle.turn_cell.specs.Steps.{Leaves};

use crate::view::TurnView;
use atomic_table::{Play, TableRule};
use stat_defs::Weighed;

pub struct Exchanging;

impl<H: Weighed> TableRule<Option<H>, TurnView<H>, ()> for Exchanging {
    ghost holds = { λ _. Turned H.weighs };

    ghost first = { λ _. turn_view };
}

pub(crate) struct WorkerLoading;

impl<H> Play<Option<H>, TurnView<H>> for WorkerLoading {
    ghost then = { WorkerLoads };
}

pub(crate) struct FlusherLoading;

impl<H> Play<Option<H>, TurnView<H>> for FlusherLoading {
    ghost then = { FlusherLoads };
}

pub(crate) struct Asking;

impl<H> Play<Option<H>, TurnView<H>> for Asking {
    ghost then = { Asks };
}

pub(crate) struct Beginning;

impl<H: Weighed> Play<Option<H>, TurnView<H>> for Beginning {
    ghost then = { Begins H.weighs };
}

pub(crate) struct Giving;

impl<H> Play<Option<H>, TurnView<H>> for Giving {
    ghost then = { Gives };
}

pub(crate) struct Collecting;

impl<H: Weighed> Play<Option<H>, TurnView<H>> for Collecting {
    ghost then = { Collects H.weighs };
}

pub(crate) struct Returning;

impl<H> Play<Option<H>, TurnView<H>> for Returning {
    ghost then = { Returns };
}

pub(crate) struct TakingBack;

impl<H> Play<Option<H>, TurnView<H>> for TakingBack {
    ghost then = { TakesBack };
}

pub(crate) struct Leaving;

impl<H> Play<Option<H>, TurnView<H>> for Leaving {
    ghost then = { Leaves };
}
