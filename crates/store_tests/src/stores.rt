//! Stores of small configurations, to which event lines are applied.
ghost use Rattle.std.specs.Prelude.{◌≡◌, ◌≤◌, ◌+◌, ◌*◌, IfOk, OnOk, length};
ghost use Rattle.stat_defs.specs.Configs.{IsConfig};
ghost use Rattle.event_script.specs.declared.limits.TheConstants as file;
ghost use Rattle.flush_view.specs.Showing.{IsShowable};
ghost use Rattle.plain_store.specs.declared.worker.TheConstants as worker;
ghost use Rattle.plain_store.specs.Store.{new_store};

use boot_file::{read, usual};
use flush_view::names_of_log;
use library_examples::{
    LinesApplied, apply_lines, count_in_turn, count_lines, count_often, count_twice, shown_of,
};
use output_options::{Format, OutputOptions};
use plain_store::PlainStore;
use report_text::write_report;
use stat_defs::{Config, CounterRow, Event, FileEnd, FlushRecord, MetricId, Report, Txt, Verdict};
use stats_io::{MemSink, MemSource, SureSource};
use std::alloc::Global;
use std::process::Abort;
use std::test::Fail;
use tag_rules::rules_and_buckets;

// Without tag rules.
pub(crate) const NO_TAGS: &str = r#"{"stats_config":{"use_all_default_tags":false}}"#;

// Without tag rules, and with a matcher.
const CLUSTERS: &str = r#"{"stats_config":{"use_all_default_tags":false,
    "stats_matcher":{"inclusion_list":{"patterns":[{"prefix":"cluster."}]}}}}"#;

// Lines in memory, given in pieces of 4,096 bytes.
fn lines_of(alloc: Global, lines: &[u8]) -> Result<MemSource, Fail> {
    let bytes = lines.to_vec(alloc)?;
    Ok(MemSource::new(String::new(alloc), bytes, 4096, Vec::new(alloc)))
}

pub(crate) fn config_of(alloc: Global, text: &str) -> Result<Config, Fail>
    ensures { IfOk result (λ config. IsConfig config) }
{
    Ok(read(alloc, text.as_bytes())?)
}

fn lines_applied(alloc: Global, lines: &[u8], store: &mut PlainStore) -> Result<LinesApplied, Fail>
    requires { length store.old.worker.events + file.MAX_EVENTS ≤ worker.MAX_EVENTS }
{
    let source = lines_of(alloc, lines)?;
    Ok(apply_lines(alloc, source, store)?)
}

// The verdicts on these lines in a new store. A store is dropped by name, since each place where it is dropped by
// itself takes the prover a minute; so are configurations and reports, which take some seconds.
fn verdicts_in(alloc: Global, config: &Config, lines: &[u8]) -> Result<Vec<Verdict>, Fail>
    requires { IsConfig config.now }
{
    let mut store = PlainStore::build(alloc, config)?;
    let applied = lines_applied(alloc, lines, &mut store);
    drop(store);
    Ok(applied?.verdicts)
}

// The same, under the configuration of a bootstrap.
fn verdicts_on(alloc: Global, text: &str, lines: &[u8]) -> Result<Vec<Verdict>, Fail> {
    let config = config_of(alloc, text)?;
    let verdicts = verdicts_in(alloc, &config, lines);
    drop(config);
    verdicts
}

// A line for each of so many numbers.
fn numbered_lines(alloc: Global, word: &str, count: u32) -> Result<Vec<u8>, Fail> {
    let mut lines = Vec::new(alloc);
    for i in 0..count {
        let line = format!(in alloc; "{word} root n{i} 1\n")?;
        lines.extend_from_slice(line.as_bytes())?;
    }
    Ok(lines)
}

// So many verdicts accept metrics numbered from 0.
fn accepted(verdicts: &[Verdict], count: u32) -> bool {
    for i in 0..count {
        if verdicts.get(i as usize) != Some(&Verdict::Accepted(MetricId(i))) {
            return false;
        }
    }
    true
}

#[test]
fn an_event_is_counted_twice(rt: HostRuntime) -> Result<(), Fail> {
    let alloc = rt.alloc();
    let config = usual(alloc)?;
    let event = Event::Inc {
        label: Txt::of(alloc, b"root")?,
        name: Txt::of(alloc, b"requests")?,
        n: 3,
    };
    let flush = count_twice(alloc, &config, &event)?;
    let deltas = flush.deltas.items();
    assert!(rt; flush.at == 2 && deltas.len() == 1 && deltas[0].n == 6);
    Ok(())
}

#[test]
fn metric_limits(rt: HostRuntime) -> Result<(), Fail> {
    let alloc = rt.alloc();
    let mut lines = numbered_lines(alloc, "inc", 16_385)?;
    lines.extend_from_slice(b"rec root h 1\nset root g acc 1\ninc root n16383 1\n")?;
    let verdicts = verdicts_on(alloc, NO_TAGS, &lines)?;
    let behind = [
        Verdict::NoRoom,
        Verdict::NoRoom,
        Verdict::NoRoom,
        Verdict::Accepted(MetricId(16_383)),
    ];
    assert!(rt;
        verdicts.len() == 16_388
            && accepted(&verdicts, 16_384)
            && verdicts.ends_with(behind.as_slice())
    );
    Ok(())
}

// Says whether the verdict at that place, from 0, is this one.
fn stands_at(verdicts: &[Verdict], place: usize, verdict: Verdict) -> bool {
    verdicts.get(place) == Some(&verdict)
}

#[test]
fn histogram_limits(rt: HostRuntime) -> Result<(), Fail> {
    let alloc = rt.alloc();
    let mut lines = numbered_lines(alloc, "rec", 1025)?;
    lines.extend_from_slice(b"inc root c 1\nrec root n1023 1\n")?;
    let verdicts = verdicts_on(alloc, NO_TAGS, &lines)?;
    assert!(rt; verdicts.len() == 1027);
    assert!(rt; accepted(&verdicts, 1024));
    assert!(rt; stands_at(&verdicts, 1024, Verdict::OverLimit));
    assert!(rt; stands_at(&verdicts, 1025, Verdict::Accepted(MetricId(1024))));
    assert!(rt; stands_at(&verdicts, 1026, Verdict::Accepted(MetricId(1023))));
    Ok(())
}

#[test]
fn names_that_are_not_included(rt: HostRuntime) -> Result<(), Fail> {
    let lines =
        b"inc root cluster.x 1\ninc root server.y 1\ninc root server.y 1\nrec root cluster 1\n";
    let verdicts = verdicts_on(rt.alloc(), CLUSTERS, lines)?;
    let told = [
        Verdict::Accepted(MetricId(0)),
        Verdict::Rejected,
        Verdict::Rejected,
        Verdict::Rejected,
    ];
    assert!(rt; verdicts.as_slice() == told.as_slice());
    Ok(())
}

// What a report is as a text.
pub(crate) fn written(
    alloc: Global,
    config: &Config,
    report: &Report,
    options: OutputOptions,
) -> Result<MemSink, Fail>
    requires config { IsConfig config.now }
    requires showable { IsShowable config.now report.now }
{
    let (rules, buckets) = rules_and_buckets(alloc, config)?;
    let mut out = MemSink::new(alloc, 8000, 4000, Vec::new(alloc))?;
    let names = names_of_log(alloc, config, rules, report)?;
    write_report(alloc, options, config, names, &buckets, report, &mut out)?;
    Ok(out)
}

const STATSD: OutputOptions = OutputOptions {
    format: Format::Statsd,
    symbols: false,
};

#[test]
fn requests_are_counted(rt: HostRuntime) -> Result<(), Fail> {
    let alloc = rt.alloc();
    let config = usual(alloc)?;
    let lines = b"inc root requests 3\ninc root requests 4\n".to_vec(alloc)?;
    let source = SureSource::new(String::new(alloc), lines, 4096);
    let report = count_lines(alloc, &config, source)?;
    let text = written(alloc, &config, &report, STATSD)?;
    assert_eq!(rt; text.bytes(), b"# last\nenvoy.requests:7|c\n".as_slice());
    Ok(())
}

fn assert_written(
    rt: &impl Abort,
    alloc: Global,
    config: &Config,
    report: &Report,
    options: OutputOptions,
    text: &str,
) -> Result<(), Fail>
    requires config { IsConfig config.now }
    requires showable { IsShowable config.now report.now }
{
    let shown = written(alloc, config, report, options)?;
    assert_eq!(rt; shown.bytes(), text.as_bytes());
    Ok(())
}

const FAULTY: &str = "inc root a 1
inc root b 2
bogus
inc root a 3
";

fn check_fault(rt: &impl Abort, alloc: Global, config: &Config) -> Result<(), Fail>
    requires { IsConfig config.now }
{
    let lines = lines_of(alloc, FAULTY.as_bytes())?;
    let report = count_lines(alloc, config, lines)?;
    let text = "# last\nenvoy.a:1|c\nenvoy.b:2|c\n";
    let checked = assert_written(rt, alloc, config, &report, STATSD, text);
    drop(report);
    checked
}

#[test]
fn lines_up_to_a_fault(rt: HostRuntime) -> Result<(), Fail> {
    let config = usual(rt.alloc())?;
    let checked = check_fault(&rt, rt.alloc(), &config);
    drop(config);
    checked
}

const NOTHING_NEW: &str = "# flush 1
envoy.a:2|c
envoy.g:3|g
# flush 2
envoy.a:0|c
envoy.g:3|g
# last
envoy.a:0|c
envoy.g:3|g
";

fn check_often(rt: &impl Abort, alloc: Global, config: &Config) -> Result<(), Fail>
    requires { IsConfig config.now }
{
    let lines = lines_of(alloc, b"inc root a 2\nadd root g acc 3\n")?;
    let report = count_often(alloc, config, lines, 2)?;
    let checked = assert_written(rt, alloc, config, &report, STATSD, NOTHING_NEW);
    drop(report);
    checked
}

#[test]
fn flushes_with_nothing_new(rt: HostRuntime) -> Result<(), Fail> {
    let config = config_of(rt.alloc(), NO_TAGS)?;
    let checked = check_often(&rt, rt.alloc(), &config);
    drop(config);
    checked
}

// Lines in memory, of which each text is a source.
fn two_sources(alloc: Global, first: &str, second: &str) -> Result<Vec<MemSource>, Fail>
    ensures { IfOk result (λ sources. length sources.items * file.MAX_EVENTS ≤ worker.MAX_EVENTS) }
{
    let first = lines_of(alloc, first.as_bytes())?;
    let second = lines_of(alloc, second.as_bytes())?;
    Ok(vec![in alloc; first, second]?)
}

// The report of three flushes: one behind the first lines, one behind the second, and the last one.
pub(crate) fn three_flushes(
    alloc: Global,
    config: &Config,
    first: &str,
    second: &str,
) -> Result<Report, Fail>
    requires { IsConfig config.now }
    ensures { IfOk result (λ report. IsShowable config.now report) }
{
    let sources = two_sources(alloc, first, second)?;
    Ok(count_in_turn(alloc, config, sources)?)
}

const EVERY_KIND: &str = "open s t
inc root a 2
inc s u 1
add root g acc 5
set root n never 7
add root m uninit 3
rec root h 7
text root v one
text s w old
";

// The scope's release is acknowledged by the event behind it.
const EVERY_KIND_AGAIN: &str = "inc root a 3
sub root g acc 9
set root n never 4
sub root m acc 1
rec root h 100
text root v two
release s
inc root b 1
";

// The released scope's metrics are shown in the flush whose sweep makes them gone. Each quantile has the values since
// the flush before, and then all so far.
const EVERY_KIND_SHOWN: &str = "# flush 1
t.w: \"old\"
v: \"one\"
a: 2
g: 5
m: 3
n: 7
t.u: 1
h: P0(7,7) P25(7.1,7.1) P50(7.1,7.1) P75(7.1,7.1) P90(7.1,7.1) P95(7.1,7.1) P99(7.1,7.1) P99.5(7.1,7.1) P99.9(7.1,7.1) P100(7.1,7.1)
# flush 2
t.w: \"old\"
v: \"two\"
a: 5
b: 1
g: -4
m: 2
n: 4
t.u: 1
h: P0(100,7) P25(110,7.1) P50(110,7.1) P75(110,110) P90(110,110) P95(110,110) P99(110,110) P99.5(110,110) P99.9(110,110) P100(110,110)
# last
v: \"two\"
a: 5
b: 1
g: -4
m: 2
n: 4
h: P0(nan,7) P25(nan,7.1) P50(nan,7.1) P75(nan,110) P90(nan,110) P95(nan,110) P99(nan,110) P99.5(nan,110) P99.9(nan,110) P100(nan,110)
";

fn check_every_kind(rt: &impl Abort, alloc: Global, config: &Config) -> Result<(), Fail>
    requires { IsConfig config.now }
{
    let report = three_flushes(alloc, config, EVERY_KIND, EVERY_KIND_AGAIN)?;
    let options = OutputOptions {
        format: Format::Admin,
        symbols: false,
    };
    let checked = assert_written(rt, alloc, config, &report, options, EVERY_KIND_SHOWN);
    drop(report);
    checked
}

#[test]
fn values_and_texts_in_three_flushes(rt: HostRuntime) -> Result<(), Fail> {
    let config = config_of(rt.alloc(), NO_TAGS)?;
    let checked = check_every_kind(&rt, rt.alloc(), &config);
    drop(config);
    checked
}

// Adds the totals of the rows of that name.
fn add_totals(rows: &[CounterRow], name: &str, totals: &mut Vec<u64>) -> Result<(), Fail> {
    for row in rows {
        if row.name.bytes() == name.as_bytes() {
            totals.push(row.total)?;
        }
    }
    Ok(())
}

// The totals of the counter's rows of that name, flush by flush.
fn totals_of(alloc: Global, config: &Config, report: &Report, name: &str) -> Result<Vec<u64>, Fail>
    requires config { IsConfig config.now }
    requires showable { IsShowable config.now report.now }
{
    let mut totals = Vec::new(alloc);
    for k in 0..report.flushes.items().len() {
        let shown = shown_of(alloc, config, report, k)?;
        let added = add_totals(shown.counters.items(), name, &mut totals);
        drop(shown);
        added?;
    }
    Ok(totals)
}

// The numbers of a flush's counters.
fn counters_of(alloc: Global, flush: &FlushRecord) -> Result<Vec<u32>, Fail> {
    let mut ids = Vec::new(alloc);
    for delta in flush.deltas.items() {
        ids.push(delta.id.0)?;
    }
    Ok(ids)
}

// The scope of `t.u` is released, and the event behind that acknowledges it.
const RELEASED: &str = "open s t\ninc s u 3\nrelease s\ninc root a 1\n";

const MADE_AGAIN: &str = "open s t\ninc s u 4\n";

fn assert_counters(
    rt: &impl Abort,
    alloc: Global,
    flush: &FlushRecord,
    ids: &[u32],
) -> Result<(), Fail> {
    assert_eq!(rt; counters_of(alloc, flush)?.as_slice(), ids);
    Ok(())
}

// Each flush shows one row of the name, whose total begins anew. The last record has a delta of each counter that was
// ever made.
fn assert_made_again(
    rt: &impl Abort,
    alloc: Global,
    config: &Config,
    report: &Report,
) -> Result<(), Fail>
    requires config { IsConfig config.now }
    requires showable { IsShowable config.now report.now }
{
    let totals = totals_of(alloc, config, report, "t.u")?;
    assert_eq!(rt; totals.as_slice(), [3, 4, 4].as_slice());
    let flushes = report.flushes.items();
    assert!(rt; flushes.len() == 3);
    assert_counters(rt, alloc, &flushes[0], &[0, 1])?;
    assert_counters(rt, alloc, &flushes[1], &[1, 2])?;
    assert_counters(rt, alloc, &flushes[2], &[0, 1, 2])
}

fn check_made_again(rt: &impl Abort, alloc: Global, config: &Config) -> Result<(), Fail>
    requires { IsConfig config.now }
{
    let report = three_flushes(alloc, config, RELEASED, MADE_AGAIN)?;
    let checked = assert_made_again(rt, alloc, config, &report);
    drop(report);
    checked
}

// The counter 0 is gone in the first sweep, and 2 is made under its name.
#[test]
fn a_name_that_is_made_again(rt: HostRuntime) -> Result<(), Fail> {
    let config = config_of(rt.alloc(), NO_TAGS)?;
    let checked = check_made_again(&rt, rt.alloc(), &config);
    drop(config);
    checked
}
