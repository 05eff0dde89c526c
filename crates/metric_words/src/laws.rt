//! Laws of step lists and of what a bank gives at its end, for callers. Each function does nothing.
ghost use Rattle.metric_words.specs.CounterLaws.{NewestIsGreatest, SumsGrow, EndOfOne};
ghost use Rattle.metric_words.specs.GaugeLaws.{GaugeSumsGrow, OneWriter};

/// A law: no load of a counter by the reader's seat found more than the newest, and none more than the word
/// at the end.
pub fn the_newest_load_is_the_greatest()
    ensures { NewestIsGreatest }
{}

/// A law: what each call of a counter bank adds to the sums over its seat's list.
pub fn counter_sums_grow()
    ensures { SumsGrow }
{}

/// A law: what the end of a counter bank says of one counter, in terms of the lists of its seats.
pub fn one_counter_at_the_end()
    ensures { EndOfOne }
{}

/// A law: what each call of a gauge bank adds to the sums over its seat's list, and what it leaves of the
/// list's fold.
pub fn gauge_sums_grow()
    ensures { GaugeSumsGrow }
{}

/// A law: a gauge that one seat alone has written has the fold of that seat's steps, and one that none has
/// written is 0.
pub fn one_writer_of_a_gauge()
    ensures { OneWriter }
{}
