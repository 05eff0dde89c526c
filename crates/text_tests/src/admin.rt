ghost use Rattle.std.specs.Prelude.{IfOk, All};
ghost use Rattle.text_parts.specs.Histograms.{AreHistograms};

use crate::views::{add_row, none, row_of, values_to_100, view_of};
use admin_read::write_admin;
use loglinear_bins::Bins;
use stat_defs::{Bound, HistRow, List};
use stats_io::MemSink;
use std::alloc::Global;
use std::test::Fail;
use text_parts::TextFault;

// Views, parted by `@`, each with its text.
const VIEWS: &str = "c a 0
a: 0
@c a.b 1;c a:b 2;g a.b -3
a.b: 1
a.b: -3
a:b: 2
@t v 1.30 beta
v: \"1.30 beta\"
@c b 1;c d 2;g a 3;g b 4;g c 5;g e 6
a: 3
b: 1
b: 4
c: 5
d: 2
e: 6
";

#[test]
fn texts_and_numbers(rt: HostRuntime) -> Result<(), Fail> {
    let alloc = rt.alloc();
    for case in VIEWS.split('@') {
        let (rows, text) = case.split_once('\n').unwrap_or(("", ""));
        let view = view_of(alloc, rows, none(alloc))?;
        let mut out = MemSink::new(alloc, 1000, 9, Vec::new(alloc))?;
        assert_eq!(rt; write_admin(alloc, &view, &mut out), Ok(()));
        assert_eq!(rt; out.bytes(), text.as_bytes());
    }
    Ok(())
}

fn no_bounds(alloc: Global) -> List<Bound> {
    List::of(Vec::new(alloc))
}

fn three_histograms(alloc: Global) -> Result<Vec<HistRow>, Fail>
    ensures { IfOk result (λ rows. All AreHistograms rows.items) }
{
    let none = Bins::new(alloc)?;
    let values = values_to_100(alloc)?;
    let mut rows = Vec::new(alloc);
    add_row(
        &mut rows,
        row_of(alloc, "h", &values, &values, no_bounds(alloc))?,
    )?;
    add_row(
        &mut rows,
        row_of(alloc, "i", &none, &values, no_bounds(alloc))?,
    )?;
    add_row(
        &mut rows,
        row_of(alloc, "j", &none, &none, no_bounds(alloc))?,
    )?;
    Ok(rows)
}

const EVERY_KIND: &str = "t: \"say \"go\"\\\"
u: \"\"
g: -2
z: 5
h: P0(1,1) P25(26,26) P50(51,51) P75(76,76) P90(91,91) P95(96,96) P99(100,100) P99.5(110,110) P99.9(110,110) P100(110,110)
i: P0(nan,1) P25(nan,26) P50(nan,51) P75(nan,76) P90(nan,91) P95(nan,96) P99(nan,100) P99.5(nan,110) P99.9(nan,110) P100(nan,110)
j: No recorded values
";

#[test]
fn every_kind(rt: HostRuntime) -> Result<(), Fail> {
    let alloc = rt.alloc();
    let rows = "t t say \"go\"\\;t u ;c z 5;g g -2";
    let view = view_of(alloc, rows, three_histograms(alloc)?)?;
    let mut out = MemSink::new(alloc, 2000, 9, Vec::new(alloc))?;
    assert_eq!(rt; write_admin(alloc, &view, &mut out), Ok(()));
    assert_eq!(rt; out.bytes(), EVERY_KIND.as_bytes());
    let mut failing = MemSink::new(alloc, 2000, 9, [2].to_vec(alloc)?)?;
    assert_eq!(rt;
        write_admin(alloc, &view, &mut failing),
        Err(TextFault::WriteFault)
    );
    assert_eq!(rt; failing.bytes(), "t: \"say \"go\"\\\"\nu: ".as_bytes());
    Ok(())
}
