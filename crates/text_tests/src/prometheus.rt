ghost use Rattle.std.specs.Prelude.{IfOk, All};
ghost use Rattle.text_parts.specs.Histograms.{AreHistograms};

use crate::views::{add_row, none as no_rows, row_of, values_to_100, view_of};
use loglinear_bins::Bins;
use prom_text::write_prom;
use stat_defs::{Bound, HistRow, List};
use stats_io::MemSink;
use std::alloc::Global;
use std::test::Fail;
use text_parts::TextFault;

// Views, parted by `@`, each with its text: a counter of 0; tags; names that become one; a text readout, which has no
// line; a tag whose name begins with a digit, and whose value has marks and a newline.
const VIEWS: &str = "c a 0|# TYPE envoy_a counter
envoy_a{} 0
@c cluster.c.upstream_rq_2xx 3 cluster.upstream_rq_xx envoy.response_code_class=2,envoy.cluster_name=c|\
# TYPE envoy_cluster_upstream_rq_xx counter
envoy_cluster_upstream_rq_xx{envoy_response_code_class=\"2\",envoy_cluster_name=\"c\"} 3
@c a-z 9;c a.b 1;c a:b 2;g a.b -3;t a.text shown nowhere|# TYPE envoy_a_b counter
envoy_a_b{} 1
envoy_a_b{} 2
# TYPE envoy_a_b gauge
envoy_a_b{} -3
# TYPE envoy_a_z counter
envoy_a_z{} 9
@c n 1 n 1:a=a\"b\\c\n|# TYPE envoy_n counter
envoy_n{_1_a=\"a\\\"b\\\\c\\n\"} 1
";

#[test]
fn counters_and_gauges(rt: HostRuntime) -> Result<(), Fail> {
    let alloc = rt.alloc();
    for case in VIEWS.split('@') {
        let (rows, text) = case.split_once('|').unwrap_or(("", ""));
        let view = view_of(alloc, rows, no_rows(alloc))?;
        let mut out = MemSink::new(alloc, 1000, 9, Vec::new(alloc))?;
        assert_eq!(rt; write_prom(alloc, &view, &mut out), Ok(()));
        assert_eq!(rt; out.bytes(), text.as_bytes());
    }
    Ok(())
}

fn bounds_of(alloc: Global, halves: &[u64]) -> Result<List<Bound>, Fail> {
    let mut bounds = Vec::new(alloc);
    for n in halves {
        bounds.push(Bound { halves: *n })?;
    }
    Ok(List::of(bounds))
}

fn one_histogram(alloc: Global, bins: &Bins, halves: &[u64]) -> Result<Vec<HistRow>, Fail>
    ensures { IfOk result (λ rows. All AreHistograms rows.items) }
{
    let none = Bins::new(alloc)?;
    let row = row_of(alloc, "h", &none, bins, bounds_of(alloc, halves)?)?;
    let mut rows = no_rows(alloc);
    add_row(&mut rows, row)?;
    Ok(rows)
}

const HALVES: [u64; 19] = [
    1, 2, 10, 20, 50, 100, 200, 500, 1000, 2000, 5000, 10000, 20000, 60000, 120_000, 600_000,
    1_200_000, 3_600_000, 7_200_000,
];

const EVERY_KIND: &str = "# TYPE envoy_a counter
envoy_a{region=\"eu\"} 5
# TYPE envoy_g gauge
envoy_g{} -2
# TYPE envoy_h histogram
envoy_h_bucket{le=\"0.5\"} 0
envoy_h_bucket{le=\"1\"} 1
envoy_h_bucket{le=\"5\"} 5
envoy_h_bucket{le=\"10\"} 10
envoy_h_bucket{le=\"25\"} 25
envoy_h_bucket{le=\"50\"} 50
envoy_h_bucket{le=\"100\"} 99
envoy_h_bucket{le=\"250\"} 100
envoy_h_bucket{le=\"500\"} 100
envoy_h_bucket{le=\"1000\"} 100
envoy_h_bucket{le=\"2500\"} 100
envoy_h_bucket{le=\"5000\"} 100
envoy_h_bucket{le=\"10000\"} 100
envoy_h_bucket{le=\"30000\"} 100
envoy_h_bucket{le=\"60000\"} 100
envoy_h_bucket{le=\"300000\"} 100
envoy_h_bucket{le=\"600000\"} 100
envoy_h_bucket{le=\"1800000\"} 100
envoy_h_bucket{le=\"3600000\"} 100
envoy_h_bucket{le=\"+Inf\"} 100
envoy_h_sum{} 5100.45
envoy_h_count{} 100
";

#[test]
fn every_kind(rt: HostRuntime) -> Result<(), Fail> {
    let alloc = rt.alloc();
    let histograms = one_histogram(alloc, &values_to_100(alloc)?, &HALVES)?;
    let view = view_of(alloc, "c a 5 a region=eu;g g -2", histograms)?;
    let mut out = MemSink::new(alloc, 2000, 9, Vec::new(alloc))?;
    assert_eq!(rt; write_prom(alloc, &view, &mut out), Ok(()));
    assert_eq!(rt; out.bytes(), EVERY_KIND.as_bytes());
    let mut failing = MemSink::new(alloc, 2000, 9, [2].to_vec(alloc)?)?;
    assert_eq!(rt;
        write_prom(alloc, &view, &mut failing),
        Err(TextFault::WriteFault)
    );
    assert_eq!(rt; failing.bytes(), "# TYPE envoy_a cou".as_bytes());
    Ok(())
}
