//! Laws on the outputs of a run and of a replay. Each function does nothing.
ghost use Rattle.same_output.specs.Independent.{SameOutput};
ghost use Rattle.same_output.specs.Worked.{ThreeIndependent};

/// A law: where no file opens or releases a scope, all names fit the limits, each gauge and each text stands in one file
/// at most, and neither a flush before the last nor a reading is asked for, a run writes what a replay writes.
pub fn same_output()
    ensures { SameOutput }
{}

/// A law: three files are independent, two that share a counter and one that moves a gauge.
pub fn three_independent()
    ensures { ThreeIndependent }
{}
