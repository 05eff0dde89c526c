//! Laws for callers who keep a cache beside the book's log. Each function does nothing.
ghost use Rattle.thread_cache.specs.SameHeld.{FillIsFind, DropIsAcknowledgement, EndIsEmpty};

/// A law: a cache that gives what a seat holds does so after a find that is held, once it is filled.
pub fn a_fill_is_a_find()
    ensures { FillIsFind }
{}

/// A law: it does so after the seat's acknowledgement, once the released scopes are dropped.
pub fn a_drop_is_an_acknowledgement()
    ensures { DropIsAcknowledgement }
{}

/// A law: it does so after the seat's end, once it gives nothing.
pub fn an_end_is_an_empty_cache()
    ensures { EndIsEmpty }
{}
