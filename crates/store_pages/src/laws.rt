//! Laws, the contracts of functions that do nothing.
ghost use Rattle.store_pages.specs.Totals.{PagesCount};
ghost use Rattle.store_pages.specs.Telling.{StoresCanBeShown};

/// A law: what a [`PlainStore`](plain_store::PlainStore) tells of itself between two calls can be shown, as
/// [`LiveViews::show`](live_view::LiveViews) asks.
pub fn stores_can_be_shown()
    ensures { StoresCanBeShown }
{}

/// A law: each counter's total in a page is the sum of the units that were counted for it since the store was opened.
pub fn pages_count()
    ensures { PagesCount }
{}
