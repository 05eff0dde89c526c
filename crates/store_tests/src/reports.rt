//! A report of three flushes, as its views show it and as it is written.
ghost use Rattle.std.specs.Prelude.{◌≡◌, IfOk, OnOk, true};
ghost use Rattle.stat_defs.specs.Configs.{IsConfig};
ghost use Rattle.ledger.specs.Worked as told;
ghost use Rattle.flush_view.specs.Showing.{IsShowable};
ghost use Rattle.store_tests.specs.TriedFlushes.{tried_flushes, tried_part};

use crate::stores::{NO_TAGS, config_of, three_flushes, written};
use flush_view::{ReportViews, names_of_log};
use library_examples::shown_of;
use output_options::{Format, OutputOptions};
use stat_defs::{
    Bin, BinCount, Config, Delta, FlushRecord, FlushView, List, MetricId, NoMemory, Part,
    ReadRecord, Reading, Report, ScopeId, Txt, Verdict,
};
use stats_io::MemSink;
use std::alloc::Global;
use std::process::Abort;
use std::test::Fail;
use tag_rules::rules_and_buckets;

fn delta(id: u32, n: u64) -> Delta
    ensures { result ≡ told.delta id n }
{
    Delta {
        id: MetricId(id),
        n,
    }
}

fn reading(id: u32, word: u64) -> Reading
    ensures { result ≡ told.reading id word }
{
    Reading {
        id: MetricId(id),
        word,
    }
}

fn part(alloc: Global, val: u8, count: u64) -> Result<Part, NoMemory>
    ensures { IfOk result (λ part. part ≡ tried_part val count) }
{
    let bin = Bin { val, exp: 0 };
    Ok(Part {
        worker: 1,
        id: MetricId(2),
        bins: List::of(vec![in alloc; BinCount { bin, count }]?),
    })
}

fn record(at: u64, deltas: Vec<Delta>, gauges: Vec<Reading>, parts: Vec<Part>) -> FlushRecord
    ensures { result ≡ record { at = at; deltas = deltas.items; gauges = gauges.items; parts = parts.items } }
{
    FlushRecord {
        at,
        deltas: List::of(deltas),
        gauges: List::of(gauges),
        parts: List::of(parts),
    }
}

fn flushes(alloc: Global) -> Result<Vec<FlushRecord>, NoMemory>
    ensures { IfOk result (λ flushes. flushes.items ≡ tried_flushes) }
{
    let mut flushes = Vec::new(alloc);
    let parts = vec![in alloc; part(alloc, 70, 1)?]?;
    let gauges = vec![in alloc; reading(1, 18_446_744_073_709_551_611)]?;
    flushes.push(record(9, vec![in alloc; delta(0, 1)]?, gauges, parts))?;
    let gauges = vec![in alloc; reading(1, 5)]?;
    let deltas = vec![in alloc; delta(0, 2), delta(4, 3)]?;
    flushes.push(record(13, deltas, gauges, Vec::new(alloc)))?;
    let gauges = vec![in alloc; reading(1, 5)]?;
    let deltas = vec![in alloc; delta(0, 0), delta(4, 1)]?;
    let parts = vec![in alloc; part(alloc, 20, 4)?]?;
    flushes.push(record(15, deltas, gauges, parts))?;
    Ok(flushes)
}

// Two files and one reading, whose units are more than a counter's word holds.
fn verdicts(alloc: Global) -> Result<Vec<List<Verdict>>, NoMemory> {
    let first = vec![in alloc;
        Verdict::Opened(ScopeId(1)),
        Verdict::Accepted(MetricId(0)),
        Verdict::LabelTaken,
        Verdict::Released(ScopeId(1)),
        Verdict::OverLimit,
    ]?;
    let second = vec![in alloc; Verdict::NoScope]?;
    Ok(vec![in alloc; List::of(first), List::of(second)]?)
}

fn reads(alloc: Global) -> Result<Vec<ReadRecord>, NoMemory> {
    let read = ReadRecord {
        at: 8,
        counters: List::of(vec![in alloc; reading(0, u64::MAX), reading(4, 2)]?),
        gauges: List::of(Vec::new(alloc)),
    };
    Ok(vec![in alloc; read]?)
}

// One metric of each kind is made, and then the scope of the counter is released, which the last event acknowledges. The
// counter is gone in the sweep behind that.
const FIRST: &str = "open s t
inc s u 1
add root g acc 5
rec root h 7
text root r x
release s
add root g acc 1
";

// One of the counter's name is made.
const SECOND: &str = "open s t
inc s u 3
text root r y
";

// The log of a store, with flushes, verdicts and readings that no store on one thread gives.
fn report(alloc: Global, config: &Config) -> Result<Report, Fail>
    requires { IsConfig config.now }
    ensures { IfOk result (λ report. IsShowable config.now report) }
{
    let played = three_flushes(alloc, config, FIRST, SECOND)?;
    let verdicts = verdicts(alloc)?;
    let reads = reads(alloc)?;
    let flushes = flushes(alloc)?;
    Ok(Report {
        verdicts: List::of(verdicts),
        flushes: List::of(flushes),
        log: played.log,
        reads: List::of(reads),
        ends: List::of(Vec::new(alloc)),
    })
}

fn config(alloc: Global) -> Result<Config, Fail>
    ensures { IfOk result (λ config. IsConfig config) }
{
    config_of(alloc, NO_TAGS)
}

fn written_on(alloc: Global, config: &Config, options: OutputOptions) -> Result<MemSink, Fail>
    requires { IsConfig config.now }
{
    let report = report(alloc, config)?;
    let out = written(alloc, config, &report, options);
    drop(report);
    out
}

// What the report is as a text.
fn report_written(alloc: Global, options: OutputOptions) -> Result<MemSink, Fail> {
    let config = config(alloc)?;
    let out = written_on(alloc, &config, options);
    drop(config);
    out
}

// The second flush has 2 units of counter 0, which the first sweep made gone, and so a row for it and one for counter 4
// of the same name; the last has none of it.
const STATSD: &str = "# flush 1
envoy.t.u:1|c
envoy.g:-5|g
# flush 2
envoy.t.u:2|c
envoy.t.u:3|c
envoy.g:5|g
# last
envoy.t.u:1|c
envoy.g:5|g
# read 1: 2 counters, 18446744073709551617 units
# symbols
g gauge acc 0103 3=g
h histogram - 0104 4=h
r text - 0105 5=r
t.u counter - 020102 1=t 2=u
# worker 1: 3 accepted, 2 dropped
# worker 2: 0 accepted, 1 dropped
";

#[test]
fn sections(rt: HostRuntime) -> Result<(), Fail> {
    let options = OutputOptions {
        format: Format::Statsd,
        symbols: true,
    };
    let out = report_written(rt.alloc(), options)?;
    assert_eq!(rt; out.bytes(), STATSD.as_bytes());
    Ok(())
}

// What stands behind the flushes of each format.
const BEHIND: &str = "# read 1: 2 counters, 18446744073709551617 units
# worker 1: 3 accepted, 2 dropped
# worker 2: 0 accepted, 1 dropped
";

fn assert_front(rt: &impl Abort, alloc: Global, format: Format, front: &str) -> Result<(), Fail> {
    let options = OutputOptions {
        format,
        symbols: false,
    };
    let out = report_written(alloc, options)?;
    assert!(rt; out.bytes().starts_with(front.as_bytes()));
    assert!(rt; out.bytes().ends_with(BEHIND.as_bytes()));
    Ok(())
}

#[test]
fn formats(rt: HostRuntime) -> Result<(), Fail> {
    let prom = "# flush 1\n# TYPE envoy_g gauge\nenvoy_g{} -5\n";
    assert_front(&rt, rt.alloc(), Format::Prom, prom)?;
    let admin = "# flush 1\nr: \"x\"\ng: -5\nt.u: 1\nh: P0(7,7) P25(7.1,7.1) ";
    assert_front(&rt, rt.alloc(), Format::Admin, admin)
}

fn put_row(text: &mut Vec<u8>, name: &Txt, told: &str) -> Result<(), NoMemory> {
    text.extend_from_slice(name.bytes())?;
    text.extend_from_slice(told.as_bytes())?;
    text.push(b'\n')?;
    Ok(())
}

// Each bin with its count.
fn bins_told(alloc: Global, counts: &[BinCount]) -> Result<String, Fail> {
    let mut told = String::new(alloc);
    for count in counts {
        let one = format!(in alloc; " {}x{}", count.bin.val, count.count)?;
        told.push_str(&one)?;
    }
    Ok(told)
}

fn put_counters(alloc: Global, text: &mut Vec<u8>, view: &FlushView) -> Result<(), Fail> {
    for row in view.counters.items() {
        let told = format!(in alloc; " {} {}", row.delta, row.total)?;
        put_row(text, &row.name, &told)?;
    }
    Ok(())
}

fn put_gauges(alloc: Global, text: &mut Vec<u8>, view: &FlushView) -> Result<(), Fail> {
    for row in view.gauges.items() {
        let told = format!(in alloc; " {}", row.value)?;
        put_row(text, &row.name, &told)?;
    }
    Ok(())
}

fn put_histograms(alloc: Global, text: &mut Vec<u8>, view: &FlushView) -> Result<(), Fail> {
    for row in view.histograms.items() {
        let interval = bins_told(alloc, row.interval.items())?;
        let cumulative = bins_told(alloc, row.cumulative.items())?;
        let told = format!(in alloc;
            "{interval} /{cumulative}, {} bounds",
            row.bounds.items().len()
        )?;
        put_row(text, &row.name, &told)?;
    }
    Ok(())
}

fn put_texts(text: &mut Vec<u8>, view: &FlushView) -> Result<(), Fail> {
    for row in view.texts.items() {
        text.extend_from_slice(row.text.bytes())?;
        put_row(text, &row.name, "")?;
    }
    Ok(())
}

// The rows of a view, kind by kind, a line each; or a word where there is no view.
fn put_view(alloc: Global, text: &mut Vec<u8>, view: &Option<FlushView>) -> Result<(), Fail> {
    let Some(view) = view else {
        text.extend_from_slice(b"none\n")?;
        return Ok(());
    };
    text.extend_from_slice(b"view\n")?;
    put_counters(alloc, text, view)?;
    put_gauges(alloc, text, view)?;
    put_histograms(alloc, text, view)?;
    put_texts(text, view)
}

fn put_next(alloc: Global, text: &mut Vec<u8>, views: &mut ReportViews<'_>) -> Result<(), Fail>
    requires { views.old.whole ≡ true }
    ensures { OnOk result (views.new.whole ≡ true) }
{
    let view = views.next(alloc)?;
    put_view(alloc, text, &view)
}

fn put_live_names(alloc: Global, text: &mut Vec<u8>, views: &ReportViews<'_>) -> Result<(), Fail> {
    for metric in views.live_metrics(alloc)? {
        put_row(text, &metric.name, "")?;
    }
    Ok(())
}

const VIEWS: &str = "view
t.u 1 1
g -5
h 70x1 / 70x1, 19 bounds
xr
view
t.u 2 3
t.u 3 3
g 5
h / 70x1, 19 bounds
yr
view
t.u 1 4
g 5
h 20x4 / 20x4 70x1, 19 bounds
yr
none
g
h
r
t.u
";

// Adds the rows of so many views one after another, and then the names that are live.
fn put_views(
    alloc: Global,
    text: &mut Vec<u8>,
    views: &mut ReportViews<'_>,
    count: u32,
) -> Result<(), Fail>
    requires { views.old.whole ≡ true }
{
    for _ in 0..count {
        put_next(alloc, text, views)?;
    }
    put_live_names(alloc, text, views)
}

fn views_told(alloc: Global, config: &Config, report: &Report) -> Result<Vec<u8>, Fail>
    requires config { IsConfig config.now }
    requires showable { IsShowable config.now report.now }
{
    let (rules, buckets) = rules_and_buckets(alloc, config)?;
    let names = names_of_log(alloc, config, rules, report)?;
    let mut views = ReportViews::new(alloc, config, names, &buckets, report)?;
    let mut text = Vec::new(alloc);
    let put = put_views(alloc, &mut text, &mut views, 4);
    drop(views);
    put?;
    Ok(text)
}

// The same of the second view alone.
fn second_told(alloc: Global, config: &Config, report: &Report) -> Result<Vec<u8>, Fail>
    requires config { IsConfig config.now }
    requires showable { IsShowable config.now report.now }
{
    let mut text = Vec::new(alloc);
    if report.flushes.items().len() < 2 {
        return Ok(text);
    }
    let second = Some(shown_of(alloc, config, report, 1)?);
    let put = put_view(alloc, &mut text, &second);
    drop(second);
    put?;
    Ok(text)
}

const SECOND_VIEW: &str = "view
t.u 2 3
t.u 3 3
g 5
h / 70x1, 19 bounds
yr
";

// All views, and the second alone.
fn all_told(alloc: Global, config: &Config, report: &Report) -> Result<(Vec<u8>, Vec<u8>), Fail>
    requires config { IsConfig config.now }
    requires showable { IsShowable config.now report.now }
{
    let views = views_told(alloc, config, report)?;
    let second = second_told(alloc, config, report)?;
    Ok((views, second))
}

fn check_views(rt: &impl Abort, alloc: Global, config: &Config) -> Result<(), Fail>
    requires { IsConfig config.now }
{
    let report = report(alloc, config)?;
    let told = all_told(alloc, config, &report);
    drop(report);
    let (views, second) = told?;
    assert_eq!(rt; views.as_slice(), VIEWS.as_bytes());
    assert_eq!(rt; second.as_slice(), SECOND_VIEW.as_bytes());
    Ok(())
}

#[test]
fn views_of_a_name_that_is_made_again(rt: HostRuntime) -> Result<(), Fail> {
    let config = config(rt.alloc())?;
    let checked = check_views(&rt, rt.alloc(), &config);
    drop(config);
    checked
}
