//! Laws of how events are counted, which hold without any call. Each function does nothing.
ghost use Rattle.run_gates.specs.Pacing.{NeverEarly};

/// A law: a worker that adds its events by packets has added no more of them than it has done, and all but
/// fewer than a packet.
pub fn never_early()
    ensures { NeverEarly }
{}
