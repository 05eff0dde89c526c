//! Worked logs, which are computed from the definitions. Each is a law, and its function does nothing.
ghost use Rattle.book_state.specs.Worked.{SweepWaits, RetiredFoundAgain, SymbolsShared, GoneInLastSweep};
ghost use Rattle.book_state.specs.SafeWorked.{SafeAndNot};

/// A worked log: a sweep waits for all workers.
///
/// Worker 1 of two opens scope `s` with prefix `t` and finds counter `u` in it: metric 0, whose tokens `t` and `u` get
/// the numbers 1 and 2. It releases `s` and acknowledges. A sweep makes nothing gone, since worker 2 has not
/// acknowledged. Worker 1 finds counter `w` in `root`: metric 1, with number 3. Worker 2 acknowledges, and the next
/// sweep makes metric 0 gone. Worker 1 finds counter `x` in `root`: metric 2, whose number is 1 or 2, and no other.
pub fn sweep_waits()
    ensures { SweepWaits }
{}

/// A worked log: a retired metric that is found again is live.
///
/// Worker 1 of two opens scope `s` with prefix `t`, finds counter `u` in it and releases `s`. It opens `s2` with the
/// same prefix and finds counter `u` there: metric 0 again, live. After both workers have acknowledged, a sweep makes
/// nothing gone.
pub fn retired_and_found_again()
    ensures { RetiredFoundAgain }
{}

/// A worked log: scopes with one prefix share a metric with its symbols.
///
/// The one worker opens `p` and `q`, both with prefix `cluster.c`, and finds counter `n` in both: metric 0, with the
/// numbers 1, 2 and 3. It releases `p`, acknowledges, and still holds the counter through `q`, so one more event of `q`
/// makes no entry. After its end a sweep makes nothing gone.
pub fn shared_symbols()
    ensures { SymbolsShared }
{}

/// A worked log: a name is gone in the last sweep.
///
/// The one worker opens `s` with prefix `t`, finds counter `u` in it and releases `s`. It acknowledges, and its next
/// event of the counter finds no scope. After its end a sweep makes the metric gone, and no token is in use.
pub fn gone_in_the_last_sweep()
    ensures { GoneInLastSweep }
{}

/// Worked logs of which some are not safe.
///
/// A log that gives number 1 to two tokens is not safe. Neither is one in which a seat finds a metric after its end, or
/// acknowledges a release that there was not yet: a sweep makes gone what the seat holds. Nor is one that finds a
/// metric that is gone, whose number was given again, nor one that gives a name more numbers than it has tokens. The
/// log of [`sweep_waits`] is safe, though it gives number 1 again.
pub fn safe_and_not()
    ensures { SafeAndNot }
{}
