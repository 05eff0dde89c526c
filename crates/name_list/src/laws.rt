//! A law of lists of names. The function does nothing.
ghost use Rattle.name_list.specs.Laws.{IdsAreBelow};

/// A law: a bound of the numbers of all changes is one of the numbers of the metrics that they give.
pub fn ids_are_below()
    ensures { IdsAreBelow }
{}
