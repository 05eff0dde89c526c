//! Laws of views and outputs, which hold without any call. Each function does nothing.
ghost use Rattle.flush_view.specs.Laws.{ViewOfEach, NoEndShown, OneOutput, IntervalOfValues, CumulativeOfAll};
ghost use Rattle.flush_view.specs.Laws.{EndsOfWorkers, FlushesInLog, TotalsOfUnits, LastBinsOfAll, SumsRise, OneOrder};
ghost use Rattle.flush_view.specs.Laws.{NumbersMade, NoneRetired};
ghost use Rattle.flush_view.specs.Showing.{LedgersShow, NamesOfLedgers, ViewsHaveBins};

/// A law: the views of all flushes are those of each flush.
pub fn view_of_each()
    ensures { ViewOfEach }
{}

/// A law: how the files ended is in no output.
pub fn no_end_shown()
    ensures { NoEndShown }
{}

/// A law: the events of its files determine the output of a replay, and so do their contents where no read
/// and no opening failed.
pub fn one_output()
    ensures { OneOutput }
{}

/// A law: where a flush fits, a histogram's interval in its view has the bins of all values that the flush
/// took of it.
pub fn interval_of_values()
    ensures { IntervalOfValues }
{}

/// A law: where the flushes account for all, the last cumulative histogram has the bins of all values that
/// were recorded in it.
pub fn cumulative_of_all()
    ensures { CumulativeOfAll }
{}

/// A law: in a log that the ledger's second part holds of, each worker has one end. So a view, which counts
/// the ends, replays the log with the workers that it has.
pub fn ends_of_workers()
    ensures { EndsOfWorkers }
{}

/// A law: the log of a ledger is legal with as many workers as it has ends, each flush stands in it, and has
/// a reading of each gauge that was not gone before its sweep.
pub fn flushes_in_log()
    ensures { FlushesInLog }
{}

/// A law: where the flushes account for all, the total of each counter's row in the last view is the units
/// of all accepted increments of that counter.
pub fn totals_of_units()
    ensures { TotalsOfUnits }
{}

/// A law: where the flushes account for all, the cumulative bins of each histogram's row in the last view are
/// those of all values that were recorded in that histogram.
pub fn last_bins_of_all()
    ensures { LastBinsOfAll }
{}

/// A law: the bins of a histogram's row are lawful, rise and are not empty, as the texts want them.
pub fn sums_rise()
    ensures { SumsRise }
{}

/// A law: rows and symbols stand in byte order of full names, those of one name as before, and no other
/// list does.
pub fn one_order()
    ensures { OneOrder }
{}

/// A law: the symbol numbers of a metric are those of the entry that made it, one for each token of its
/// full name.
pub fn numbers_made()
    ensures { NumbersMade }
{}

/// A law: after a sweep behind the ends of all workers a metric is live or gone.
pub fn none_retired()
    ensures { NoneRetired }
{}

/// A law: the report of a run or of a replay can be shown, where there are no more files than workers may be.
pub fn ledgers_show()
    ensures { LedgersShow }
{}

/// A law: in each view of a report that can be shown the bins of histograms rise, none of them is empty, and they
/// have no more values than are counted, as the texts ask.
pub fn views_have_bins()
    ensures { ViewsHaveBins }
{}

/// A law: the names that a ledger's report came with are those that its views are made of.
pub fn names_of_ledgers()
    ensures { NamesOfLedgers }
{}
