//! Worked views and outputs, which are computed from the definitions. Each is a law, and its function does
//! nothing.
ghost use Rattle.std.specs.Prelude.{[], codes};
ghost use Rattle.ledger.specs.Worked.{of_increments, of_subtraction, of_gauge_moves, of_released, of_shared};
ghost use Rattle.ledger.specs.Worked.{of_values_and_texts};
ghost use Rattle.flush_view.specs.Worked.{IsShown, TwoShown, view_of_increments, view_of_subtraction};
ghost use Rattle.flush_view.specs.Worked.{view_of_gauge_moves, view_of_released, view_of_shared};
ghost use Rattle.flush_view.specs.Worked.{view_of_values_and_texts, symbols_of_values_and_texts};
ghost use Rattle.flush_view.specs.WorkedRows.{GoneAndMadeAgain, RetiredShown, TextsAndParts, NamesInOrder};

/// A worked view: two increments of one counter show 7 units, and its symbol.
pub fn two_increments()
    ensures { IsShown of_increments view_of_increments
        (codes "a counter - 0101 1=a\n") (codes "# worker 1: 2 accepted, 0 dropped\n") }
{}

/// A worked view: a gauge that 5 is subtracted from shows -5.
pub fn a_subtraction()
    ensures { IsShown of_subtraction view_of_subtraction
        (codes "g gauge acc 0101 1=g\n") (codes "# worker 1: 1 accepted, 0 dropped\n") }
{}

/// A worked view: a gauge that goes past the greatest signed number shows the least one.
pub fn gauge_moves()
    ensures { IsShown of_gauge_moves view_of_gauge_moves
        (codes "g gauge acc 0101 1=g\n") (codes "# worker 1: 3 accepted, 0 dropped\n") }
{}

/// A worked view: the last flush shows the one unit of a counter that its sweep makes gone, and no symbol
/// is left of it.
pub fn a_released_scope()
    ensures { IsShown of_released view_of_released [] (codes "# worker 1: 3 accepted, 1 dropped\n") }
{}

/// A worked view: a counter that two scopes share shows the units of both, and the symbols of its three
/// tokens.
pub fn shared_symbols()
    ensures { IsShown of_shared view_of_shared
        (codes "cluster.c.n counter - 03010203 1=cluster 2=c 3=n\n")
        (codes "# worker 1: 6 accepted, 0 dropped\n") }
{}

/// A worked view: the value 7 shows as one value in the bin (70, 0), in the interval and in all, and a
/// readout shows the text that was set last.
pub fn values_and_texts()
    ensures { IsShown of_values_and_texts view_of_values_and_texts
        symbols_of_values_and_texts (codes "# worker 1: 3 accepted, 0 dropped\n") }
{}

/// A worked view: the two workers' report with two flushes and a reading. The last flush shows the
/// histogram of the first one without an interval. The symbols stand by name.
pub fn two_workers()
    ensures { TwoShown }
{}

/// A worked view: a counter that an earlier sweep made gone has a row where the flush has units of it,
/// before the later counter of its name, and none where it has not.
pub fn a_name_made_again()
    ensures { GoneAndMadeAgain }
{}

/// A worked view: a retired gauge has a row, also in the flush whose sweep makes it gone, and none behind
/// that.
pub fn a_retired_gauge()
    ensures { RetiredShown }
{}

/// A worked view: a text is the one before the sweep, a histogram that was made behind the sweep is shown
/// with its parts, and the parts of two workers and of two flushes are one sum each, with tags and bounds
/// by their settings.
pub fn texts_and_parts()
    ensures { TextsAndParts }
{}

/// Worked rows: counters by name, and symbols by name and then by kind.
pub fn names_in_order()
    ensures { NamesInOrder }
{}
