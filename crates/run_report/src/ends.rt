//! The ends of files that could not be opened.
ghost use Rattle.std.specs.Prelude.{◌≡◌, length};
ghost use Rattle.run_report.specs.Opened.{with_told};

use stat_defs::{List, Report, WorkerEnd};

// Puts the ends that are told in place of the others.
fn tell_ends(ends: &mut [WorkerEnd], told: &[Option<WorkerEnd>])
    requires { length told.now ≡ length ends.old }
    ensures { ends.new ≡ with_told told.now ends.old }
{
    for place in 0..told.len() {
        match told[place] {
            Some(end) => ends[place] = end,
            None => {}
        }
    }
}

/// A report whose ends are told anew, where they are told here.
pub(crate) fn with_ends(report: Report, told: &[Option<WorkerEnd>]) -> Report
    requires { length told.now ≡ length report.ends }
    ensures { result ≡ record report { ends = with_told told.now report.ends } }
{
    let Report {
        verdicts,
        flushes,
        log,
        reads,
        ends,
    } = report;
    let mut ends = ends.into_items();
    tell_ends(&mut ends, told);
    Report {
        verdicts,
        flushes,
        log,
        reads,
        ends: List::of(ends),
    }
}
