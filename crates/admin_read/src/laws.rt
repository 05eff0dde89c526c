//! What every reader of the text may count on.
ghost use Rattle.std.specs.Prelude.{◌≡◌, List};
ghost use Rattle.std.specs.List.{filter_map};
ghost use Rattle.std.specs.List.Sorted.{IsSortedBy};
ghost use Rattle.stat_defs.specs.declared.views.CounterRow.{CounterRow};
ghost use Rattle.stat_defs.specs.declared.views.GaugeRow.{GaugeRow};
ghost use Rattle.admin_read.specs.Admin.{together};
ghost use Rattle.admin_read.specs.Order.{comes_before, AreCountersByName, AreGaugesByName, counter_in, gauge_in};

/// Where counters and gauges stand by name, both together stand by name, a counter before the gauges of its name.
/// However they stand, each of them has its line once, counters in their order and gauges in theirs.
pub fn order_law()
    ensures order { (counters : List CounterRow) (gauges : List GaugeRow)
        → AreCountersByName counters → AreGaugesByName gauges → IsSortedBy comes_before (together counters gauges) }
    ensures counters { (counters : List CounterRow) (gauges : List GaugeRow)
        → filter_map counter_in (together counters gauges) ≡ counters }
    ensures gauges { (counters : List CounterRow) (gauges : List GaugeRow)
        → filter_map gauge_in (together counters gauges) ≡ gauges }
{}
