//! Worked reports, which are computed from the definitions. Each is a law, and its function does nothing.
ghost use Rattle.book_state.specs.Worked.{shared_events, released_events};
ghost use Rattle.ledger.specs.Worked.{plain_plan, plan_of_reading, IsReported, increments, of_increments, subtraction};
ghost use Rattle.ledger.specs.Worked.{of_subtraction, gauge_moves as moves, of_gauge_moves, of_shared, of_released};
ghost use Rattle.ledger.specs.Worked.{ValuesAndTexts, with_reading, without_end, number_passed_over, ended_late};
ghost use Rattle.ledger.specs.Worked.{unit_lost, FirstAloneBroken, SecondAloneBroken, ThirdAloneBroken};
ghost use Rattle.ledger.specs.Worked.{FourthAloneBroken, FifthAloneBroken, TwoWorkers, GaugeCases};

/// A worked report: two increments of one counter, 3 and 4, give one delta of 7.
pub fn two_increments()
    ensures { IsReported increments of_increments }
{}

/// A worked report: a gauge that 5 is subtracted from stands at 2^64 less 5.
pub fn a_subtraction()
    ensures { IsReported subtraction of_subtraction }
{}

/// A worked report: a gauge that is then set to 2^63 less 1, and to which 1 is added, stands at 2^63.
pub fn gauge_moves()
    ensures { IsReported moves of_gauge_moves }
{}

/// A worked report: a counter's scope is released, its next increment finds no scope, and the last flush
/// has its one unit.
pub fn a_released_scope()
    ensures { IsReported released_events of_released }
{}

/// A worked report: two scopes with one prefix share a counter. One is released, and the last flush has
/// the 7 units of both.
pub fn shared_symbols()
    ensures { IsReported shared_events of_shared }
{}

/// A worked report: the value 7 makes a part with one value in the bin (70, 0), and a text readout holds
/// the text that was set last.
pub fn values_and_texts()
    ensures { ValuesAndTexts }
{}

/// A broken report: no end stands for the file. That is no ledger by its first part alone.
pub fn a_report_without_an_end()
    ensures { FirstAloneBroken plain_plan without_end }
{}

/// A broken report: a name gets number 2, though 1 is free. That is no ledger by its second part alone.
pub fn a_number_passed_over()
    ensures { SecondAloneBroken plain_plan number_passed_over }
{}

/// A broken report: the worker ends after the last sweep. That is no ledger by its third part alone.
pub fn an_end_behind_the_last_sweep()
    ensures { ThirdAloneBroken plain_plan ended_late }
{}

/// A broken report: the deltas have 6 of 7 units. That is no ledger by its fourth part alone.
pub fn a_unit_lost()
    ensures { FourthAloneBroken plain_plan unit_lost }
{}

/// A broken report: a reading shows 8 of 7 units. That is no ledger by its fifth part alone.
pub fn a_reading_too_high()
    ensures { FifthAloneBroken plan_of_reading (with_reading 8) }
{}

/// A worked report: two workers with two flushes and a reading.
///
/// Worker 1 records 7, and the first flush comes then, with that value. Both increment one counter, by 3
/// and 4, and set one gauge, to 5 and 9. The last flush has 7 units, and 5 or 9 as the gauge's word, and
/// no other. A reading shows at most 7.
pub fn two_workers()
    ensures { TwoWorkers }
{}

/// What is told of a gauge's word, by cases: the sum of additions and subtractions, the fold of one
/// worker's moves, and nothing where one worker sets and another one adds last.
pub fn gauge_cases()
    ensures { GaugeCases }
{}
