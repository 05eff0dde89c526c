//! Laws of ledgers, which hold without any call. Each function does nothing.
ghost use Rattle.ledger.specs.OneReport.{OneReply, OneWay, OneReport, OneDirect};
ghost use Rattle.ledger.specs.Laws.{WorkGrows, UnitsGrow, WordsGrow, SegmentsGrow, FitsGrow, FlushAtSweep, PartsTake};
ghost use Rattle.ledger.specs.Once.{LedgersHaveScopesOnce};
ghost use Rattle.ledger.specs.Laws.{OneWorkerAccounts, NamesShown, FollowsFromOpenings};

/// A law: the work of a file grows by one event with its verdict, and that of a replay by one file.
pub fn work_grows()
    ensures { WorkGrows }
{}

/// A law: one more event of a worker adds its units, and one more flush those that it shows.
pub fn units_grow()
    ensures { UnitsGrow }
{}

/// A law: one more event of a worker moves its word of a gauge. Where one worker at most moves a gauge,
/// the fold of its moves is a last word by all three cases.
pub fn words_grow()
    ensures { WordsGrow }
{}

/// A law: one more event leaves a worker's segments, and one more flush takes the first of those values
/// that no flush took. Segments and what is left over are all that the worker recorded.
pub fn segments_grow()
    ensures { SegmentsGrow }
{}

/// A law: flushes that fit still do with more log entries, after one more event, and before one more
/// flush that fits.
pub fn fits_grow()
    ensures { FitsGrow }
{}

/// A law: a flush fits behind the sweep that was logged last, where it shows what was not gone before it.
/// A sweep makes no metric.
pub fn flush_at_sweep()
    ensures { FlushAtSweep }
{}

/// A law: the parts of a segment have as many values as it has. So a flush with the bins of all that was
/// left over of the one worker takes all of it.
pub fn parts_take()
    ensures { PartsTake }
{}

/// A law: the flushes of one worker account for all that it did, where each fits, the units are those of its
/// events, nothing is left over, and each word of the last flush is the fold of its moves.
pub fn one_worker_accounts()
    ensures { OneWorkerAccounts }
{}

/// A law: what a flush shows of a kind are those of the kind among all names that are not gone, and a
/// delta for each of some metrics adds the units of these metrics.
pub fn names_shown()
    ensures { NamesShown }
{}

/// A law: behind the openings of the configuration a worker has followed no event so far, from which its
/// first event goes on.
pub fn follows_from_openings()
    ensures { FollowsFromOpenings }
{}

/// A law: where no metric is gone and no number is free, a call has one reply, its numbers included, and
/// no number is free after it, unless it is a sweep.
pub fn one_reply()
    ensures { OneReply }
{}

/// A law: where no metric is gone and no number is free, an event has one verdict and makes one list of
/// entries.
pub fn one_way()
    ensures { OneWay }
{}

/// A law: the events of its files determine the report of a replay, but for the ends of the files.
pub fn one_report()
    ensures { OneReport }
{}

/// A law: where no read and no opening failed, the contents of its files determine the report of a
/// replay, but for the counts of faults in the ends of the files.
pub fn one_direct()
    ensures { OneDirect }
{}

/// A law: over all verdicts of the report of a run, each scope was opened once at most, and released once at
/// most.
pub fn scopes_once()
    ensures { LedgersHaveScopesOnce }
{}
