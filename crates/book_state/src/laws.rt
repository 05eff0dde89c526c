//! Laws of logs, which hold without any call. Each function does nothing.
ghost use Rattle.book_state.specs.Laws.{LogGrows, OthersLeave, OwnEnds, OwnGrow, ChainGrows};
ghost use Rattle.book_state.specs.SeatLaws.{OwnCalls, HeldAfter, SeatStays, MayCall, LegalSeats};
ghost use Rattle.book_state.specs.SafeLaws.{LegalIsSafe, MetricsStay};

/// A law: a log with one entry more gives the effect of that entry, and is legal where the log was and the entry is a
/// step.
pub fn a_log_grows()
    ensures { LogGrows }
{}

/// A law: entries of other seats leave a seat as it is, with its tag, its end and what it holds, and add nothing to its
/// own entries.
pub fn others_leave_a_seat()
    ensures { OthersLeave }
{}

/// A law: after its own last entry a seat stands as after the whole log, and there were no more releases than then.
pub fn a_seat_stands_at_its_last_entry()
    ensures { OwnEnds }
{}

/// A law: a seat's own entries in a log with more entries are those in the log, and then those among the further ones.
pub fn own_entries_grow()
    ensures { OwnGrow }
{}

/// A law: what a seat did follows its events. Before its first event it has no entry, entries of other seats are no
/// event of it, each event makes the seat's own entries among those that are added, and the last is its end, behind
/// which entries of other seats may stand. What an event may make is judged at the state of the whole log.
pub fn a_chain_grows()
    ensures { ChainGrows }
{}

/// A law: a seat's own find adds what is held, its own acknowledgement takes the entries of dead scopes and gives it
/// its tag, and its end takes all. Its other calls leave it as it is.
pub fn own_calls_change_a_seat()
    ensures { OwnCalls }
{}

/// A law: the same, of what a seat holds.
pub fn a_seat_holds_what_it_found()
    ensures { HeldAfter }
{}

/// A law: a seat works until its own end, keeps its tag until its own acknowledgement, which gives it the tag that it
/// tells, and only a release adds to the releases.
pub fn a_seat_stays()
    ensures { SeatStays }
{}

/// A law: a working seat may find what it does not hold, acknowledge where its tag is below the releases, and set the
/// text of an accepted text readout that it holds.
pub fn a_seat_may_call()
    ensures { MayCall }
{}

/// A law: after a legal log a seat has acknowledged no more releases than there were, and holds no key twice. Among the
/// scopes of what it holds the dead ones are exactly those released since its last acknowledgement.
pub fn seats_of_a_legal_log()
    ensures { LegalSeats }
{}

/// A law: a legal log is safe. Each accepted verdict that a seat holds names a metric that was made, of its key's kind,
/// whose numbers are in use.
pub fn a_legal_log_is_safe()
    ensures { LegalIsSafe }
{}

/// A law: a metric keeps its name, its kind and its numbers, whatever is logged after it was made.
pub fn metrics_stay()
    ensures { MetricsStay }
{}
