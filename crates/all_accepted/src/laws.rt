//! Laws on the verdicts of a run and of a replay. Each function does nothing.
ghost use Rattle.all_accepted.specs.Admitted.{AcceptedNamed, AllAccepted, NumbersOfNames};

/// A law: where no file opens or releases a scope, and all that the events name fits the limits, each event with an
/// opened label and an admitted name is accepted, by a run and by a replay.
pub fn all_accepted()
    ensures { AllAccepted }
{}

/// A law: each accepted event of such a run names the metric whose number it was given.
pub fn accepted_named()
    ensures { AcceptedNamed }
{}

/// A law: an event of such a run was given a metric's number exactly where it names the metric.
pub fn numbers_of_names()
    ensures { NumbersOfNames }
{}
