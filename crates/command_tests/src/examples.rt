//! The shipped examples, and what is shown of a histogram.
ghost use Rattle.std.specs.Prelude.{◌≤◌, IfOk};

use crate::calls::assert_call;
use stats_io::{MemFile, MemShelf};
use std::alloc::Global;
use std::test::Fail;
use test_support::{
    API_EVENTS, EDGE_ADMIN, EDGE_JSON, EDGE_STATSD, TAGS_EVENTS, TAGS_JSON, TAGS_PROM, TAGS_STATSD,
    TAGS_SYMBOLS, WEB_EVENTS, Wanted, file_of, shelf_of,
};

// Commands over the files in `examples/`, with the outputs that stand there. The program's stored run is the sixth.
const EXAMPLES: [(&str, &str); 5] = [
    (
        "replay --format statsd examples/edge.json examples/web.events examples/api.events",
        EDGE_STATSD,
    ),
    (
        "replay --format admin examples/edge.json examples/web.events examples/api.events",
        EDGE_ADMIN,
    ),
    (
        "replay --format statsd examples/tags.json examples/tags.events",
        TAGS_STATSD,
    ),
    (
        "replay --format prom examples/tags.json examples/tags.events",
        TAGS_PROM,
    ),
    (
        "replay --symbols --format admin examples/tags.json examples/tags.events",
        TAGS_SYMBOLS,
    ),
];

// A file of `examples/`.
fn example(alloc: Global, name: &str, text: &str) -> Result<MemFile, Fail>
    ensures { IfOk result (λ file. 1 ≤ file.piece) }
{
    file_of(alloc, name, text.as_bytes(), 999)
}

// A shelf with the files in `examples/`.
fn example_shelf(alloc: Global) -> Result<MemShelf, Fail> {
    let edge = example(alloc, "examples/edge.json", EDGE_JSON)?;
    let web = example(alloc, "examples/web.events", WEB_EVENTS)?;
    let api = example(alloc, "examples/api.events", API_EVENTS)?;
    let tags = example(alloc, "examples/tags.json", TAGS_JSON)?;
    let shop = example(alloc, "examples/tags.events", TAGS_EVENTS)?;
    let files = vec![in alloc; edge, web, api, tags, shop]?;
    Ok(MemShelf::new(files, Vec::new(alloc)))
}

#[test]
fn examples_are_as_they_stand(rt: HostRuntime) -> Result<(), Fail> {
    let alloc = rt.alloc();
    for (words, out) in EXAMPLES {
        let wanted = Wanted {
            status: 0,
            reports: true,
            out: out.as_bytes(),
            err: b"",
        };
        assert_call(&rt, alloc, words, example_shelf(alloc)?, wanted)?;
    }
    Ok(())
}

// The lines `rec root h V` for V from 1 to 100.
fn a_hundred_values(alloc: Global) -> Result<Vec<u8>, Fail> {
    let mut bytes = Vec::new(alloc);
    for k in 0..100u64 {
        let line = format!(in alloc; "rec root h {}\n", k.saturating_add(1))?;
        bytes.extend_from_slice(line.as_bytes())?;
    }
    Ok(bytes)
}

const QUANTILES: &str =
    "# last\nh: P0(1,1) P25(26,26) P50(51,51) P75(76,76) P90(91,91) P95(96,96) P99(100,100) P99.5(110,110) P99.9(110,110) P100(110,110)\n# worker 1: 100 accepted, 0 dropped\n";

const BUCKETS: &str =
    "# last\n# TYPE envoy_h histogram\nenvoy_h_bucket{le=\"0.5\"} 0\nenvoy_h_bucket{le=\"1\"} 1\nenvoy_h_bucket{le=\"5\"} 5\nenvoy_h_bucket{le=\"10\"} 10\nenvoy_h_bucket{le=\"25\"} 25\nenvoy_h_bucket{le=\"50\"} 50\nenvoy_h_bucket{le=\"100\"} 99\nenvoy_h_bucket{le=\"250\"} 100\nenvoy_h_bucket{le=\"500\"} 100\nenvoy_h_bucket{le=\"1000\"} 100\nenvoy_h_bucket{le=\"2500\"} 100\nenvoy_h_bucket{le=\"5000\"} 100\nenvoy_h_bucket{le=\"10000\"} 100\nenvoy_h_bucket{le=\"30000\"} 100\nenvoy_h_bucket{le=\"60000\"} 100\nenvoy_h_bucket{le=\"300000\"} 100\nenvoy_h_bucket{le=\"600000\"} 100\nenvoy_h_bucket{le=\"1800000\"} 100\nenvoy_h_bucket{le=\"3600000\"} 100\nenvoy_h_bucket{le=\"+Inf\"} 100\nenvoy_h_sum{} 5100.45\nenvoy_h_count{} 100\n# worker 1: 100 accepted, 0 dropped\n";

#[test]
fn quantiles_and_buckets(rt: HostRuntime) -> Result<(), Fail> {
    let alloc = rt.alloc();
    for (words, out) in [
        ("replay --format admin - f1", QUANTILES),
        ("replay --format prom - f1", BUCKETS),
    ] {
        let wanted = Wanted {
            status: 0,
            reports: true,
            out: out.as_bytes(),
            err: b"",
        };
        let shelf = shelf_of(alloc, &a_hundred_values(alloc)?, 999_999)?;
        assert_call(&rt, alloc, words, shelf, wanted)?;
    }
    Ok(())
}
