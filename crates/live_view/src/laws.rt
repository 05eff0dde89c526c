//! A law, the contract of a function that does nothing.
ghost use Rattle.live_view.specs.Live.{ReportShows};

/// A law: the view of a flush of a whole report is that of its flushes so far, with as many workers as have an end in
/// it, and a report that can be shown can be shown so.
pub fn report_shows()
    ensures { ReportShows }
{}
