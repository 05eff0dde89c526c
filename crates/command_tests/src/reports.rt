//! What a report has.

use crate::calls::play_over;
use stat_defs::{Delta, MetricId, Report, Verdict};
use std::alloc::Global;
use std::test::Fail;
use test_support::shelf_of;

const THREE_NAMES: &[u8] = b"inc root z 5\ninc web z 1\ninc root a 2\ninc root z 6\n";

// The report on a file.
fn report_on(alloc: Global, file: &[u8]) -> Result<Report, Fail> {
    let played = play_over(alloc, "replay - f1", shelf_of(alloc, file, 9)?, 100, 999)?;
    Ok(played.outcome.report.ok_or("no report")?)
}

#[test]
fn verdicts_have_numbers_in_order_of_first_use(rt: HostRuntime) -> Result<(), Fail> {
    let report = report_on(rt.alloc(), THREE_NAMES)?;
    let verdicts = report.verdicts.items().first().ok_or("no file")?;
    let wanted = [
        Verdict::Accepted(MetricId(0)),
        Verdict::NoScope,
        Verdict::Accepted(MetricId(1)),
        Verdict::Accepted(MetricId(0)),
    ];
    assert!(rt; verdicts.items() == wanted.as_slice());
    Ok(())
}

#[test]
fn a_flush_has_the_sums_under_their_numbers(rt: HostRuntime) -> Result<(), Fail> {
    let report = report_on(rt.alloc(), THREE_NAMES)?;
    let flush = report.flushes.items().first().ok_or("no flush")?;
    let sums = [
        Delta {
            id: MetricId(0),
            n: 11,
        },
        Delta {
            id: MetricId(1),
            n: 2,
        },
    ];
    assert!(rt; flush.deltas.items() == sums.as_slice());
    Ok(())
}
