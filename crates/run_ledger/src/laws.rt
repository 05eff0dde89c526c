//! Laws of the accounts of a run, which hold without any call. Each function does nothing.
ghost use Rattle.run_ledger.specs.Grows.{RunGrows};
ghost use Rattle.run_ledger.specs.Ends.{RunEnds};
ghost use Rattle.run_ledger.specs.Laws.{RunsAccount};

/// A law: where the files were read and all parties account for what they did, the report of a run is its
/// ledger.
pub fn run_accounts()
    ensures { RunsAccount }
{}

/// A law: what one call of a worker, of the flusher or of the reader adds to what it tells.
pub fn run_grows()
    ensures { RunGrows }
{}

/// A law: how the store's end makes the last latches, the last sweep and the last words of gauges.
pub fn run_ends()
    ensures { RunEnds }
{}
