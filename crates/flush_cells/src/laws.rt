//! Laws of passes, which hold without any call. Each function does nothing.
ghost use Rattle.flush_cells.specs.Late.{TellsLeast};
ghost use Rattle.flush_cells.specs.Taken.{StayInStep};

/// A law: the worker that a pass tells is late, with the word that is told, and no lower one is. Where a pass tells
/// none, none is late.
pub fn a_pass_tells_the_least()
    ensures { TellsLeast }
{}

/// A law: of each worker, the halves that were taken are those of the rounds before, those of this round, and the one
/// that is held.
pub fn halves_stay_in_step()
    ensures { StayInStep }
{}
