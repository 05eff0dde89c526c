//! Commands over files, and what comes of them.

use crate::calls::play_over;
use std::alloc::Global;
use std::process::Abort;
use std::test::Fail;
use test_support::{Wanted, shelf_with};

// A row a block. Behind `>` stand the words, then the lines of the files, whose last has no newline where it ends in `\`,
// the number of the pull that fails of each file if one does, the status, and the lines of both outputs.
const ROWS: &str = r#"> replay - f1
status 0
out: # last
out: # worker 1: 0 accepted, 0 dropped

> replay - f1
f1: inc root a 0
status 0
out: # last
out: # worker 1: 1 accepted, 0 dropped

> replay f1 f2
f1: {}
f2: inc web a 1
f2: inc root a 2
status 0
out: # last
out: envoy.a:2|c
out: # worker 1: 1 accepted, 1 dropped

> replay - f1
f1: # x
f1: inc root b 2
f1:
f1: inc root a:b 1
f1: inc root b 40\
status 0
out: # last
out: envoy.a_b:1|c
out: envoy.b:42|c
out: # worker 1: 3 accepted, 0 dropped

> replay - f1
f1: inc root a 1
f1: inc root a 01
f1: inc root a 1
status 3
out: # last
out: envoy.a:1|c
out: # worker 1: 1 accepted, 0 dropped
err: file 1 line 2: no event

> replay - f1
f1: inc root a 1
f1: inc root b 2
pull 1 fails
status 4
out: # last
out: envoy.a:1|c
out: # worker 1: 1 accepted, 0 dropped
err: file 1: read failed

> replay - f1 f2
f1: inc root a 1\
f2: inc root b 2
f2: # x
f2: bogus
f2: inc root c 1\
status 3
out: # last
out: envoy.a:1|c
out: envoy.b:2|c
out: # worker 1: 1 accepted, 0 dropped
out: # worker 2: 1 accepted, 0 dropped
err: file 2 line 3: no event

> replay - f1 f2
f1: x
f2: inc root a 1
f2: inc root b 2
pull 1 fails
status 3
out: # last
out: envoy.a:1|c
out: # worker 1: 0 accepted, 0 dropped
out: # worker 2: 1 accepted, 0 dropped
err: file 1 line 1: no event
err: file 2: read failed

> replay f1 f2
f1: {"stats_config":{"stats_matcher":{"inclusion_list":{"patterns":[{"prefix":"cluster."}]}}}}
f2: inc root cluster.x 1
f2: inc root server.y 1\
status 0
out: # last
out: envoy.cluster.x:1|c
out: # worker 1: 1 accepted, 1 dropped

> replay f1 f2
f1: {"stats_run":{"flushes":3,"reads":2,"scopes":[{"label":"x","prefix":"p"},{"label":"y","prefix":"p."}]}}
f2: inc x a 1
f2: inc y a 2\
status 0
out: # last
out: envoy.p.a:3|c
out: # worker 1: 2 accepted, 0 dropped

> replay f1 f2
f1: {"stats_config":{"use_all_default_tags":true,"stats_tags":[{"tag_name":"region","fixed_value":"eu-1"}],"stats_matcher":{"exclusion_list":{"patterns":[{"prefix":"cluster.api.internal."},{"safe_regex":{"regex":".*\\.debug"}}]}},"histogram_bucket_settings":[{"match":{"suffix":"_ms"},"buckets":[10,50,100,1000]}]},"stats_sinks":[{"name":"envoy.stat_sinks.statsd","typed_config":{"prefix":"edge"}}],"stats_run":{"scopes":[{"label":"web","prefix":"http.web."},{"label":"api","prefix":"cluster.api"}]}}
f2: inc root a 1
f2: inc web rq 2
f2: inc api x 3
f2: inc api internal.y 4
f2: inc api z.debug 5\
status 0
out: # last
out: edge.a:1|c
out: edge.cluster.api.x:3|c
out: edge.http.web.rq:2|c
out: # worker 1: 3 accepted, 2 dropped

> replay f1 f2
f1: [
f2: inc root a 1\
status 2
err: boot: not json

> replay f1 f2
f1: {"stats_config":{"stats_tags":[{"tag_name":"x","regex":"("}]}}
f2: inc root a 1\
status 2
err: boot: bad pattern at stats_config.stats_tags[0].regex

> replay f1 f2
f1: {"stats_config":{"stats_matcher":{"exclusion_list":{"patterns":[{"exact":"("},{"safe_regex":{"regex":"("}}]}}}}
status 2
err: boot: bad pattern at stats_config.stats_matcher.exclusion_list.patterns[1].safe_regex.regex

> replay f1 f2
f1: {"stats_run":{"scopes":[{"label":"root"}]}}
status 2
err: boot: bad key at stats_run.scopes[0].label

> replay f1 f2
f1: {"stats_run":{"reads":65}}
status 2
err: boot: out of range at stats_run.reads

> bins 0 7 10 99 100 109 110 12345 18446744073709551615
status 0
out: 0 0 0
out: 7 70 0
out: 10 10 1
out: 99 99 1
out: 100 10 2
out: 109 10 2
out: 110 11 2
out: 12345 12 4
out: 18446744073709551615 18 19

> load 3 1
status 0
out: # load 3 1
out: events 3 accepted 3 dropped 0
out: counters 1 units 526
out: gauges 1 sum 709
out: histograms 1 values 1
out: bin 43 4 1

> check -
status 0
out: ok: 4 tag rules, 0 patterns, 0 bucket settings, 1 scopes

> replay - f1 --format=admin
f1: inc root a 0
status 0
out: # last
out: a: 0
out: # worker 1: 1 accepted, 0 dropped

> replay -- - f1
f1: inc root a 0
status 0
out: # last
out: # worker 1: 1 accepted, 0 dropped

> check f1
f1: {"stats_config":{"stats_tags":[{"tag_name":"region","fixed_value":"eu-1"}],"stats_matcher":{"exclusion_list":{"patterns":[{"prefix":"cluster.api.internal."},{"safe_regex":{"regex":".*\\.debug"}}]}},"histogram_bucket_settings":[{"match":{"suffix":"_ms"},"buckets":[10,50,100,1000]}]},"stats_run":{"scopes":[{"label":"web","prefix":"http.web."},{"label":"api","prefix":"cluster.api"}]}}
status 0
out: ok: 5 tag rules, 2 patterns, 1 bucket settings, 3 scopes

> check f1
f1: {"stats_config":{"histogram_bucket_settings":[{"match":{"safe_regex":{"regex":"["}},"buckets":[1]}]}}
status 2
err: boot: bad pattern at stats_config.histogram_bucket_settings[0].match.safe_regex.regex

> check f1
f1: [
status 2
err: boot: not json

> check f9
status 4
err: boot: read failed

> replay --format admin - f1
f1: inc root a 0
status 0
out: # last
out: a: 0
out: # worker 1: 1 accepted, 0 dropped

> replay --format prom - f1
f1: open c cluster.c
f1: inc c upstream_rq_2xx 3
status 0
out: # last
out: # TYPE envoy_cluster_upstream_rq_xx counter
out: envoy_cluster_upstream_rq_xx{envoy_response_code_class="2",envoy_cluster_name="c"} 3
out: # worker 1: 2 accepted, 0 dropped

> replay --format prom - f1
f1: inc root cluster.foo_cluster.upstream_rq_timeout 1
status 0
out: # last
out: # TYPE envoy_cluster_upstream_rq_timeout counter
out: envoy_cluster_upstream_rq_timeout{envoy_cluster_name="foo_cluster"} 1
out: # worker 1: 1 accepted, 0 dropped

> replay --symbols - f1
f1: open p cluster.c
f1: open q cluster.c.
f1: inc p n 1
f1: inc q n 2
f1: release p
f1: inc q n 4
status 0
out: # last
out: envoy.cluster.c.n:7|c
out: # symbols
out: cluster.c.n counter - 03010203 1=cluster 2=c 3=n
out: # worker 1: 6 accepted, 0 dropped

> replay --symbols - f1
f1: open s t
f1: inc s u 1
f1: release s
f1: inc s u 1
status 0
out: # last
out: envoy.t.u:1|c
out: # symbols
out: # worker 1: 3 accepted, 1 dropped

> replay - f1
f1: sub root g acc 5
status 0
out: # last
out: envoy.g:-5|g
out: # worker 1: 1 accepted, 0 dropped

> replay --format statsd - f1
f1: sub root g acc 5
f1: set root g acc 9223372036854775807
f1: add root g acc 1
status 0
out: # last
out: envoy.g:-9223372036854775808|g
out: # worker 1: 3 accepted, 0 dropped

> replay --format prom - f1
f1: inc root a:b 2
f1: inc root a.b 1
f1: sub root a.b acc 3
status 0
out: # last
out: # TYPE envoy_a_b counter
out: envoy_a_b{} 1
out: envoy_a_b{} 2
out: # TYPE envoy_a_b gauge
out: envoy_a_b{} -3
out: # worker 1: 3 accepted, 0 dropped

> replay --format admin - f1
f1: inc root a:b 2
f1: inc root a.b 1
f1: sub root a.b acc 3
status 0
out: # last
out: a.b: 1
out: a.b: -3
out: a:b: 2
out: # worker 1: 3 accepted, 0 dropped

> replay --format prom f1 f2
f1: {"stats_config":{"stats_tags":[{"tag_name":"t","fixed_value":"a\"b\\c"}]}}
f2: inc root n 1
status 0
out: # last
out: # TYPE envoy_n counter
out: envoy_n{t="a\"b\\c"} 1
out: # worker 1: 1 accepted, 0 dropped

> replay --format prom f1 f2
f1: {"stats_config":{"stats_tags":[{"tag_name":"1:a","fixed_value":"v"}]}}
f2: inc root n 1
status 0
out: # last
out: # TYPE envoy_n counter
out: envoy_n{_1_a="v"} 1
out: # worker 1: 1 accepted, 0 dropped

> replay --format prom f1 f2
f1: {"stats_config":{"use_all_default_tags":false,"stats_tags":[{"tag_name":"a","regex":"^x\\.((\\w+)\\.)"},{"tag_name":"b","regex":"^(x\\.y)"}]}}
f2: inc root x.y.z 1
status 0
out: # last
out: # TYPE envoy_z counter
out: envoy_z{a="y",b="x.y"} 1
out: # worker 1: 1 accepted, 0 dropped

> replay --format prom f1 f2
f1: {"stats_config":{"stats_tags":[{"tag_name":"a","fixed_value":"1"},{"tag_name":"a","regex":"(z)"}]}}
f2: inc root x.z 1
status 0
out: # last
out: # TYPE envoy_x_z counter
out: envoy_x_z{a="1"} 1
out: # worker 1: 1 accepted, 0 dropped

> replay --format prom f1 f2
f1: {"stats_config":{"stats_tags":[{"tag_name":"a","regex":"(q)?z"}]}}
f2: inc root x.z 1
status 0
out: # last
out: # TYPE envoy_x_z counter
out: envoy_x_z{} 1
out: # worker 1: 1 accepted, 0 dropped

> replay --format admin - f1
f1: text root v 1.30 beta
status 0
out: # last
out: v: "1.30 beta"
out: # worker 1: 1 accepted, 0 dropped

> replay --format admin --symbols - f1
f1: set root g never 7
status 0
out: # last
out: g: 7
out: # symbols
out: g gauge never 0101 1=g
out: # worker 1: 1 accepted, 0 dropped

> replay --symbols --format admin - f1
f1: rec root h 7
status 0
out: # last
out: h: P0(7,7) P25(7.1,7.1) P50(7.1,7.1) P75(7.1,7.1) P90(7.1,7.1) P95(7.1,7.1) P99(7.1,7.1) P99.5(7.1,7.1) P99.9(7.1,7.1) P100(7.1,7.1)
out: # symbols
out: h histogram - 0101 1=h
out: # worker 1: 1 accepted, 0 dropped

> replay - f1 f2
f1: open s web
f1: inc s rq 2
f1: inc root a 0
f1: add root g acc 9
f1: rec s ms 5
f1: text root v  x 
f1: release s
f2: inc s rq 1
f2: sub root g acc 12
f2: set root b never 4
f2: inc root c 3
status 0
out: # last
out: envoy.c:3|c
out: envoy.web.rq:2|c
out: envoy.b:4|g
out: envoy.g:-3|g
out: # worker 1: 7 accepted, 0 dropped
out: # worker 2: 3 accepted, 1 dropped"#;

// The lines of a row behind this mark, each with its newline but where it ends in `\`.
fn text_behind(alloc: Global, row: &str, mark: &str) -> Result<Vec<u8>, Fail> {
    let mut text = Vec::new(alloc);
    for line in row.split('\n') {
        let Some(rest) = line.strip_prefix(mark) else {
            continue;
        };
        let rest = rest.strip_prefix(" ").unwrap_or(rest);
        match rest.strip_suffix("\\") {
            Some(cut) => text.extend_from_slice(cut.as_bytes())?,
            None => {
                text.extend_from_slice(rest.as_bytes())?;
                text.push(b'\n')?;
            }
        }
    }
    Ok(text)
}

// The digit behind this mark, and 99 where the row has none.
fn digit_behind(row: &str, mark: &str) -> u8 {
    for line in row.split('\n') {
        if let Some(rest) = line.strip_prefix(mark) {
            return rest
                .as_bytes()
                .first()
                .map_or(99, |digit| digit.saturating_sub(b'0'));
        }
    }
    99
}

fn words_in(row: &str) -> &str {
    row.split('\n')
        .next()
        .and_then(|line| line.strip_prefix("> "))
        .unwrap_or("")
}

fn assert_row(rt: &impl Abort, alloc: Global, row: &str) -> Result<(), Fail> {
    let words = words_in(row);
    let (first, second) = (
        text_behind(alloc, row, "f1:")?,
        text_behind(alloc, row, "f2:")?,
    );
    let failing_pull = u64::from(digit_behind(row, "pull "));
    let shelf = shelf_with(alloc, &first, &second, b"", failing_pull)?;
    let played = play_over(alloc, words, shelf, 7, 999)?;
    let status = digit_behind(row, "status ");
    let (out, err) = (
        text_behind(alloc, row, "out:")?,
        text_behind(alloc, row, "err:")?,
    );
    let wanted = Wanted {
        status,
        reports: words.starts_with("replay") && status != 2,
        out: &out,
        err: &err,
    };
    assert!(rt; played.came_to(wanted), "{row}");
    Ok(())
}

#[test]
fn rows_and_what_is_written(rt: HostRuntime) -> Result<(), Fail> {
    for row in ROWS.split("\n\n") {
        assert_row(&rt, rt.alloc(), row)?;
    }
    Ok(())
}
