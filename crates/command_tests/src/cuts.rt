//! A file that is cut anywhere.

use crate::calls::{assert_call, play_over};
use stat_defs::Report;
use std::process::Abort;
use std::test::Fail;
use test_support::{Wanted, shelf_of, shelf_with};

const CUT: &[u8] = b"inc root a 1\nrec root h 7\nrelease root\n";

const NO_ROWS: &str = "# last\n# worker 1: 0 accepted, 0 dropped\n";

const ONE: &str = "# last\nenvoy.a:1|c\n# worker 1: 1 accepted, 0 dropped\n";

const TWO: &str = "# last\nenvoy.a:1|c\n# worker 1: 2 accepted, 0 dropped\n";

const NO_SUCH_SCOPE: &str = "# last\nenvoy.a:1|c\n# worker 1: 2 accepted, 1 dropped\n";

const THREE: &str = "# last\nenvoy.a:1|c\n# worker 1: 3 accepted, 0 dropped\n";

// Of the file cut behind each length from the first one to the second: what is written, and what is said.
const CUTS: [(usize, usize, &str, &str); 8] = [
    (0, 0, NO_ROWS, ""),
    (1, 11, NO_ROWS, "file 1 line 1: no event\n"),
    (12, 13, ONE, ""),
    (14, 24, ONE, "file 1 line 2: no event\n"),
    (25, 26, TWO, ""),
    (27, 34, TWO, "file 1 line 3: no event\n"),
    // `release r`, `release ro` and `release roo` are events.
    (35, 37, NO_SUCH_SCOPE, ""),
    (38, 39, THREE, ""),
];

#[test]
fn a_file_cut_anywhere(rt: HostRuntime) -> Result<(), Fail> {
    let alloc = rt.alloc();
    assert_eq!(rt; CUT.len(), 39);
    for (first, last, out, err) in CUTS {
        let wanted = Wanted {
            status: if err.is_empty() { 0 } else { 3 },
            reports: true,
            out: out.as_bytes(),
            err: err.as_bytes(),
        };
        for length in first..=last {
            let file = CUT.get(..length).unwrap_or(b"?");
            assert_call(
                &rt,
                alloc,
                "replay - f1",
                shelf_of(alloc, file, 99)?,
                wanted,
            )?;
        }
    }
    Ok(())
}

// How many values the flushes of a report have.
fn values_of(report: &Report) -> u64 {
    let mut sum = 0u64;
    for flush in report.flushes.items() {
        for part in flush.parts.items() {
            for bin in part.bins.items() {
                sum = sum.wrapping_add(bin.count);
            }
        }
    }
    sum
}

const THREE_FLUSHES: &[u8] = br#"{"stats_run":{"flushes":3}}"#;

// A replay has its one flush, however many a run would have.
#[test]
fn values_cut_anywhere(rt: HostRuntime) -> Result<(), Fail> {
    let alloc = rt.alloc();
    let mut file = Vec::new(alloc);
    for count in 0..=10u64 {
        let shelf = shelf_with(alloc, &file, THREE_FLUSHES, b"", 99)?;
        let played = play_over(alloc, "replay f2 f1", shelf, 100, 999)?;
        let Some(report) = &played.outcome.report else {
            panic!(rt; "{count} values and no report");
        };
        assert_eq!(rt; report.flushes.items().len(), 1);
        assert_eq!(rt; values_of(report), count);
        file.extend_from_slice(b"rec root h 7\n")?;
    }
    Ok(())
}
