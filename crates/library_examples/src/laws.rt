//! A law, the contract of a function that does nothing.
ghost use Rattle.library_examples.specs.StoreOf.{StoresShow};

/// A law: a new store is one of its configuration (`IsStoreOf`), and so it stays with each event and each flush. When
/// it is finished, the report of all its flushes can be shown, as [`flush_view`](flush_view::flush_view) asks.
pub fn stores_show()
    ensures { StoresShow }
{}
