use crate::views::{none, view_of};
use stat_defs::Txt;
use stats_io::MemSink;
use statsd_text::write_statsd;
use std::test::Fail;

const LINES: &str = "envoy.a:7|c
envoy.b_c_d:0|c
envoy.a:0|g
envoy.g_:-5|g
envoy.h:-9223372036854775808|g
";

#[test]
fn lines_of_counters_and_gauges(rt: HostRuntime) -> Result<(), Fail> {
    let alloc = rt.alloc();
    let rows = "c a 7+7;c b:c|d 5;c z 0;g a 0;g g| -5;g h -9223372036854775808";
    let view = view_of(alloc, rows, none(alloc))?;
    let prefix = Txt::of(alloc, b"envoy")?;
    let mut out = MemSink::new(alloc, 200, 9, Vec::new(alloc))?;
    assert_eq!(rt; write_statsd(alloc, &view, &prefix, &mut out), Ok(()));
    assert_eq!(rt; out.bytes(), LINES.as_bytes());
    Ok(())
}
