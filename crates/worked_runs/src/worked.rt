//! The worked run and its broken reports, which are computed from the definitions. Each is a law, and its function
//! does nothing.
ghost use Rattle.worked_runs.specs.Run.{TwoAccount, IsLedgerOfRun, plan_of_run, report_of_run};
ghost use Rattle.worked_runs.specs.Broken.{ThirdAloneBroken, FourthAloneBroken, FifthAloneBroken, flushes_exchanged};
ghost use Rattle.worked_runs.specs.Broken.{plan_of_more, counted_twice, part_moved, value_lost, value_fallen};
ghost use Rattle.worked_runs.specs.Broken.{place_fallen, reading_left_out, flushes_joined, plan_of_fewer};
ghost use Rattle.worked_runs.specs.Broken.{gauge_too_early, word_unset, units_made_up, delta_left_out};
ghost use Rattle.worked_runs.specs.Broken.{counter_left_out, gauge_read_too_early, place_behind_the_log};
ghost use Rattle.worked_runs.specs.Broken.{value_in_another_bin, beside_its_sweep, SecondAloneBroken, end_left_out};

/// A worked run: its workers, flushes and readings account for what they did.
///
/// Both workers record 7 in one histogram, and they add 3, 4 and 2 to one counter. The flushes show 3, 4 and 2 units.
/// The first has the value of worker 1, and the second that of worker 2. The readings show 3 and 7 units.
/// Both workers set one gauge, whose last word is 5.
pub fn two_account()
    ensures { TwoAccount }
{}

/// A worked report: that of the worked run is its ledger.
pub fn a_report_of_two()
    ensures { IsLedgerOfRun report_of_run }
{}

/// A broken report: worker 2 has no end in the log. That is no ledger by its second part alone, though the log is legal:
/// the worker's entries do not follow its events.
pub fn a_worker_without_an_end()
    ensures { SecondAloneBroken end_left_out }
{}

/// A broken report: the second flush stands before the first one. That is no ledger by its third part alone.
pub fn flushes_in_another_order()
    ensures { ThirdAloneBroken plan_of_run flushes_exchanged }
{}

/// A broken report: that of the worked run, where three flushes before the last one were asked for, and not two. That
/// is no ledger by its third part alone.
pub fn a_flush_too_few()
    ensures { ThirdAloneBroken plan_of_more report_of_run }
{}

/// A broken report: the first flush is left out, and its units and its value stand in the second one. Though one flush
/// before the last one was asked for, that is no ledger by its third part alone: the log has three sweeps.
pub fn a_flush_left_out()
    ensures { ThirdAloneBroken plan_of_fewer flushes_joined }
{}

/// A broken report: the first flush stands at the entry behind its sweep. That is no ledger by its fourth part alone.
pub fn a_flush_beside_its_sweep()
    ensures { FourthAloneBroken beside_its_sweep }
{}

/// A broken report: the last flush has 4 units that the second one has too. That is no ledger by its fourth part
/// alone.
pub fn units_counted_twice()
    ensures { FourthAloneBroken counted_twice }
{}

/// A broken report: the value of worker 1 stands under worker 2. That is no ledger by its fourth part alone.
pub fn a_part_of_another_worker()
    ensures { FourthAloneBroken part_moved }
{}

/// A broken report: the value of worker 1, which is 7, stands in the bin of 8. That is no ledger by its fourth part alone.
pub fn a_value_in_another_bin()
    ensures { FourthAloneBroken value_in_another_bin }
{}

/// A broken report: the value of worker 1 stands in no part. That is no ledger by its fourth part alone.
pub fn a_value_in_no_part()
    ensures { FourthAloneBroken value_lost }
{}

/// A broken report: the first flush has a word of the gauge, which was made behind its sweep. That is no ledger by its
/// fourth part alone.
pub fn a_gauge_before_it_was_made()
    ensures { FourthAloneBroken gauge_too_early }
{}

/// A broken report: the last word of the gauge is 4, which no worker set. That is no ledger by its fourth part alone.
pub fn a_word_that_no_worker_set()
    ensures { FourthAloneBroken word_unset }
{}

/// A broken report: the first flush has no delta of the counter, which was made by then, and the second one has its units
/// too. That is no ledger by its fourth part alone.
pub fn a_delta_left_out()
    ensures { FourthAloneBroken delta_left_out }
{}

/// A broken report: the first reading has no value of the counter, which was made by then. That is no ledger by its fifth
/// part alone.
pub fn a_counter_left_out()
    ensures { FifthAloneBroken counter_left_out }
{}

/// A broken report: the first reading has a word of the gauge, which was made behind it. That is no ledger by its fifth
/// part alone.
pub fn a_gauge_read_before_it_was_made()
    ensures { FifthAloneBroken gauge_read_too_early }
{}

/// A broken report: the second reading is of more log entries than there are. That is no ledger by its fifth part alone.
pub fn a_place_behind_the_log()
    ensures { FifthAloneBroken place_behind_the_log }
{}

/// A broken report: the second reading shows 10 units, and 9 were accepted. That is no ledger by its fifth part alone.
pub fn a_reading_above_the_units()
    ensures { FifthAloneBroken units_made_up }
{}

/// A broken report: the first reading shows 7 units, and the second one 3. That is no ledger by its fifth part
/// alone.
pub fn a_reading_that_falls()
    ensures { FifthAloneBroken value_fallen }
{}

/// A broken report: the second reading is of fewer log entries than the first one. That is no ledger by its fifth
/// part alone.
pub fn a_place_that_falls()
    ensures { FifthAloneBroken place_fallen }
{}

/// A broken report: two readings were asked for, and there is one. That is no ledger by its fifth part alone.
pub fn a_reading_too_few()
    ensures { FifthAloneBroken reading_left_out }
{}
