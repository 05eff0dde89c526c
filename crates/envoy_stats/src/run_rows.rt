//! Rows of the command `run`. What depends on the schedule is not compared: sums, counts and what is written once a run
//! is over do not.
ghost use Rattle.std.specs.Prelude.{◌≤◌, IfOk};

use crate::envoy_stats_with;
use name_map::HashKey;
use stat_defs::{FlushRecord, MetricId, ReadRecord, Report, Verdict};
use stats_io::{MemFile, MemShelf, MemSink};
use std::alloc::Global;
use std::process::Abort;
use std::sync::Wait;
use std::test::Fail;
use std::thread::Threads;
use tag_rules::RegexMaker;
use test_support::{EDGE_JSON, Played, Wanted, file_of, shelf_of, words_of};

// What a call of the program over that shelf comes to, with that output sink.
fn run_into<R: Threads + Wait + Sync>(
    rt: &R,
    alloc: Global,
    words: &str,
    mut shelf: MemShelf,
    mut out: MemSink,
) -> Result<Played, Fail> {
    let mut maker = RegexMaker::new(Vec::new(alloc));
    let mut err = MemSink::new(alloc, 1000, 100, Vec::new(alloc))?;
    let words = words_of(alloc, words)?;
    let key = HashKey::of(7);
    let outcome = envoy_stats_with(
        rt, alloc, key, &words, &mut maker, &mut shelf, &mut out, &mut err,
    );
    Ok(Played {
        outcome,
        out,
        err,
        shelf,
    })
}

// The same with a sink that takes a byte a push, and whose push of that number fails.
fn run_over<R: Threads + Wait + Sync>(
    rt: &R,
    alloc: Global,
    words: &str,
    shelf: MemShelf,
    failing_push: u64,
) -> Result<Played, Fail> {
    let out = MemSink::new(alloc, 4000, 1, vec![in alloc; failing_push]?)?;
    run_into(rt, alloc, words, shelf, out)
}

// A call with the files `f1` and `f2`, for each file the number of the pull that fails, and what the call comes to.
#[derive(Clone, Copy)]
struct Row {
    words: &'static str,
    files: [&'static str; 2],
    failing_pulls: [u64; 2],
    status: u8,
    out: &'static str,
    err: &'static str,
}

const ROWS: [Row; 6] = [
    Row {
        words: "run - f1 f2",
        files: ["inc root a 1\ninc root a 2\n", "inc root a 4\n"],
        failing_pulls: [99, 99],
        status: 0,
        out: "# last\nenvoy.a:7|c\n# worker 1: 2 accepted, 0 dropped\n# worker 2: 1 accepted, 0 dropped\n",
        err: "",
    },
    Row {
        words: "run --format admin - f1",
        files: [
            "text root t x y\nadd root g acc 5\nsub root g acc 7\ninc web n 1\n",
            "",
        ],
        failing_pulls: [99, 99],
        status: 0,
        out: "# last\nt: \"x y\"\ng: -2\n# worker 1: 3 accepted, 1 dropped\n",
        err: "",
    },
    Row {
        words: "run - f1 f9",
        files: ["inc root a 1\n", "inc root a 4\n"],
        failing_pulls: [99, 99],
        status: 4,
        out: "# last\nenvoy.a:1|c\n# worker 1: 1 accepted, 0 dropped\n# worker 2: 0 accepted, 0 dropped\n",
        err: "file 2: not opened\n",
    },
    Row {
        words: "run - f1 f2",
        files: ["inc root a 1\ninc root b 2\n", "inc root c 4\n"],
        failing_pulls: [1, 99],
        status: 4,
        out: "# last\nenvoy.a:1|c\nenvoy.c:4|c\n# worker 1: 1 accepted, 0 dropped\n# worker 2: 1 accepted, 0 dropped\n",
        err: "file 1: read failed\n",
    },
    Row {
        words: "run - f1 f2",
        files: ["inc root a 1\nbogus\n", "inc root c 4\n"],
        failing_pulls: [99, 99],
        status: 3,
        out: "# last\nenvoy.a:1|c\nenvoy.c:4|c\n# worker 1: 1 accepted, 0 dropped\n# worker 2: 1 accepted, 0 dropped\n",
        err: "file 1 line 2: no event\n",
    },
    Row {
        words: "run f1 f2",
        files: ["[", "inc root c 4\n"],
        failing_pulls: [99, 99],
        status: 2,
        out: "",
        err: "boot: not json\n",
    },
];

#[test]
fn workers_side_by_side(rt: HostRuntime) -> Result<(), Fail> {
    for row in ROWS {
        let alloc = rt.alloc();
        let [first, second] = row.files;
        let [of_first, of_second] = row.failing_pulls;
        let first = file_of(alloc, "f1", first.as_bytes(), of_first)?;
        let second = file_of(alloc, "f2", second.as_bytes(), of_second)?;
        let shelf = MemShelf::new(vec![in alloc; first, second]?, Vec::new(alloc));
        let played = run_over(&rt, alloc, row.words, shelf, 9_999)?;
        let wanted = Wanted {
            status: row.status,
            reports: row.status != 2,
            out: row.out.as_bytes(),
            err: row.err.as_bytes(),
        };
        assert!(rt; played.came_to(wanted), "{}", row.words);
    }
    Ok(())
}

const USAGE: &[u8] =
    b"usage: envoy_stats run|replay [--symbols] [--format statsd|prom|admin] BOOT FILE.. | check BOOT | bins V.. | load [--run] W E\n";

// Words that say no command, where there is a file `f`.
const BAD_WORDS: [&str; 8] = [
    "",
    "replay",
    "replay -",
    "run",
    "run -",
    "run --format x - f",
    "run --symbols --symbols - f",
    "bins 01",
];

#[test]
fn bad_words(rt: HostRuntime) -> Result<(), Fail> {
    let alloc = rt.alloc();
    for words in BAD_WORDS {
        let file = file_of(alloc, "f", b"inc root a 1\n", 9_999)?;
        let shelf = MemShelf::new(vec![in alloc; file]?, Vec::new(alloc));
        let played = run_over(&rt, alloc, words, shelf, 9_999)?;
        let wanted = Wanted {
            status: 1,
            reports: false,
            out: b"",
            err: USAGE,
        };
        assert!(rt; played.came_to(wanted), "{words}");
    }
    Ok(())
}

#[test]
fn each_push_of_a_run_failing(rt: HostRuntime) -> Result<(), Fail> {
    let output = b"# last\nenvoy.a:7|c\n# worker 1: 2 accepted, 0 dropped\n";
    for k in 0..output.len() as u64 {
        let shelf = shelf_of(rt.alloc(), b"inc root a 3\ninc root a 4\n", 9)?;
        let played = run_over(&rt, rt.alloc(), "run - f1", shelf, k)?;
        assert_eq!(rt; played.outcome.status, 5, "{k}");
        assert!(rt; played.outcome.report.is_some(), "{k}");
        assert_eq!(rt; played.out.bytes().len() as u64, k);
        assert!(rt; output.starts_with(played.out.bytes()), "{k}");
        assert!(rt; played.err.bytes() == b"write failed\n".as_slice(), "{k}");
    }
    Ok(())
}

// Two flushes before the last one, and a reading, each behind as many events as the file has.
const PACED: &[u8] = b"{\"stats_run\":{\"flushes\":2,\"flush_every\":2000,\"reads\":1}}";

const LINES: u64 = 2000;

// A bootstrap, and a file of that line, repeated this number of times.
fn many_lines(alloc: Global, boot: &[u8], line: &[u8], times: u64) -> Result<MemShelf, Fail> {
    let mut bytes = Vec::new(alloc);
    for _ in 0..times {
        bytes.extend_from_slice(line)?;
    }
    let boot = file_of(alloc, "b", boot, 9_999)?;
    let file = file_of(alloc, "f", &bytes, 9_999)?;
    Ok(MemShelf::new(vec![in alloc; boot, file]?, Vec::new(alloc)))
}

// The report of a run of such a file.
fn paced_report<R: Threads + Wait + Sync>(
    rt: &R,
    alloc: Global,
    line: &[u8],
) -> Result<Report, Fail> {
    let shelf = many_lines(alloc, PACED, line, LINES)?;
    let played = run_over(rt, alloc, "run b f", shelf, 9_999)?;
    Ok(played.outcome.report.ok_or("no report")?)
}

// Two flushes before the last one, behind three and six events, and a reading behind three.
const EVERY_THREE: &[u8] = b"{\"stats_run\":{\"flushes\":2,\"flush_every\":3,\"reads\":1}}";

// What a run of ten of these lines comes to.
fn run_of_ten<R: Threads + Wait + Sync>(
    rt: &R,
    alloc: Global,
    line: &[u8],
) -> Result<Played, Fail> {
    let shelf = many_lines(alloc, EVERY_THREE, line, 10)?;
    run_over(rt, alloc, "run b f", shelf, 9_999)
}

// The units of the first metric in a flush.
fn first_units(flush: &FlushRecord) -> u64 {
    let mut units = 0u64;
    for delta in flush.deltas.items() {
        if delta.id == MetricId(0) {
            units = units.saturating_add(delta.n);
        }
    }
    units
}

// The units of the first metric in all flushes.
fn all_units(flushes: &[FlushRecord]) -> u64 {
    let mut units = 0u64;
    for flush in flushes {
        units = units.saturating_add(first_units(flush));
    }
    units
}

// The values in all parts of a flush.
fn values_in(flush: &FlushRecord) -> u64 {
    let mut values = 0u64;
    for part in flush.parts.items() {
        for bin in part.bins.items() {
            values = values.saturating_add(bin.count);
        }
    }
    values
}

// The values in all parts of all flushes.
fn all_values(flushes: &[FlushRecord]) -> u64 {
    let mut values = 0u64;
    for flush in flushes {
        values = values.saturating_add(values_in(flush));
    }
    values
}

// No round begins early.
#[test]
fn flushes_and_reads(rt: HostRuntime) -> Result<(), Fail> {
    let report = paced_report(&rt, rt.alloc(), b"inc root a 1\n")?;
    let flushes = report.flushes.items();
    assert_eq!(rt; flushes.len(), 3);
    assert_eq!(rt; first_units(&flushes[0]), LINES);
    assert_eq!(rt; all_units(flushes), LINES);
    assert_eq!(rt; report.reads.items().len(), 1);
    for reading in report.reads.items() {
        for counter in reading.counters.items() {
            assert_eq!(rt; counter.word, LINES);
        }
    }
    Ok(())
}

#[test]
fn flushes_of_values(rt: HostRuntime) -> Result<(), Fail> {
    let report = paced_report(&rt, rt.alloc(), b"rec root h 7\n")?;
    assert_eq!(rt; all_values(report.flushes.items()), LINES);
    Ok(())
}

// The line on a run's first reading.
fn reading_line(alloc: Global, reading: &ReadRecord) -> Result<String, Fail> {
    let mut units = 0u64;
    for counter in reading.counters.items() {
        units = units.saturating_add(counter.word);
    }
    let counters = reading.counters.items().len();
    Ok(format!(in alloc; "# read 1: {counters} counters, {units} units")?)
}

// How many of the units each flush and the reading find depends on the schedule.
#[test]
fn ten_units_flushed_and_read(rt: HostRuntime) -> Result<(), Fail> {
    let alloc = rt.alloc();
    let played = run_of_ten(&rt, alloc, b"inc root a 1\n")?;
    assert_eq!(rt; played.outcome.status, 0);
    let report = played.outcome.report.as_ref().ok_or("no report")?;
    let flushes = report.flushes.items();
    assert_eq!(rt; flushes.len(), 3);
    assert_eq!(rt; all_units(flushes), 10);
    let readings = report.reads.items();
    assert_eq!(rt; readings.len(), 1);
    let line = reading_line(alloc, &readings[0])?;
    assert!(rt; has_line(played.out.bytes(), line.as_str()));
    assert!(rt; readings[0].counters.items().len() <= 1);
    for counter in readings[0].counters.items() {
        assert!(rt; counter.id == MetricId(0) && counter.word <= 10);
    }
    Ok(())
}

#[test]
fn ten_values_flushed(rt: HostRuntime) -> Result<(), Fail> {
    let played = run_of_ten(&rt, rt.alloc(), b"rec root h 7\n")?;
    assert_eq!(rt; played.outcome.status, 0);
    let report = played.outcome.report.as_ref().ok_or("no report")?;
    assert_eq!(rt; report.flushes.items().len(), 3);
    assert_eq!(rt; all_values(report.flushes.items()), 10);
    Ok(())
}

// A thousand events: counters and a histogram of all workers, gauges of this one, and as every fifth event one whose
// name the matcher does not admit.
fn usual_lines(alloc: Global, worker: u32) -> Result<String, Fail> {
    let mut lines = String::new(alloc);
    for i in 0..200u32 {
        let own = format!(in alloc; "set root worker{worker}.level{} acc {i}\n", i % 3)?;
        let shared = format!(in alloc;
            "inc web downstream_rq_{}xx {i}\nrec web rq_time_ms {}\ninc api upstream_rq_20{} 2\ninc api x{}.debug 1\n",
            i % 5,
            i.wrapping_mul(worker),
            i % 7,
            i % 2
        )?;
        lines.push_str(own.as_str())?;
        lines.push_str(shared.as_str())?;
    }
    Ok(lines)
}

// The file of a worker.
fn usual_file(alloc: Global, name: &str, worker: u32) -> Result<MemFile, Fail>
    ensures { IfOk result (λ file. 1 ≤ file.piece) }
{
    let lines = usual_lines(alloc, worker)?;
    file_of(alloc, name, lines.as_bytes(), 9_999)
}

// A proxy's bootstrap, with a matcher, tags, buckets and two scopes, and a file for each of four workers.
fn usual_shelf(alloc: Global) -> Result<MemShelf, Fail> {
    let boot = file_of(alloc, "b", EDGE_JSON.as_bytes(), 9_999)?;
    let one = usual_file(alloc, "f1", 1)?;
    let two = usual_file(alloc, "f2", 2)?;
    let three = usual_file(alloc, "f3", 3)?;
    let four = usual_file(alloc, "f4", 4)?;
    let files = vec![in alloc; boot, one, two, three, four]?;
    Ok(MemShelf::new(files, Vec::new(alloc)))
}

// What a command comes to over the four files in a format.
fn usual_call<R: Threads + Wait + Sync>(
    rt: &R,
    alloc: Global,
    command: &str,
    format: &str,
) -> Result<Played, Fail> {
    let words = format!(in alloc; "{command} --format {format} b f1 f2 f3 f4")?;
    let out = MemSink::new(alloc, 30_000, 30_000, Vec::new(alloc))?;
    run_into(rt, alloc, words.as_str(), usual_shelf(alloc)?, out)
}

// Whether every fifth of a worker's thousand events was rejected, and every other one accepted.
fn are_due(verdicts: &[Verdict]) -> bool {
    let mut place = 0u64;
    for verdict in verdicts {
        place = place.wrapping_add(1);
        let due = match verdict {
            Verdict::Accepted(_) => place % 5 != 0,
            Verdict::Rejected => place % 5 == 0,
            _ => false,
        };
        if !due {
            return false;
        }
    }
    place == 1_000
}

// Whether one of the lines is this one.
fn has_line(text: &[u8], wanted: &str) -> bool {
    for line in text.split(|b| *b == b'\n') {
        if line == wanted.as_bytes() {
            return true;
        }
    }
    false
}

// All that the matcher admits was accepted.
fn assert_accepted(rt: &impl Abort, report: &Report) {
    let verdicts = report.verdicts.items();
    assert_eq!(rt; verdicts.len(), 4);
    for of_worker in verdicts {
        assert!(rt; are_due(of_worker.items()));
    }
}

// The formats, and the line on the counter `cluster.api.upstream_rq_200` in each.
const FORMATS: [(&str, &str); 3] = [
    ("statsd", "edge.cluster.api.upstream_rq_200:232|c"),
    (
        "prom",
        "envoy_cluster_upstream_rq{envoy_response_code=\"200\",envoy_cluster_name=\"api\",region=\"eu-1\"} 232",
    ),
    ("admin", "cluster.api.upstream_rq_200: 232"),
];

#[test]
fn a_run_writes_what_a_replay_writes(rt: HostRuntime) -> Result<(), Fail> {
    let alloc = rt.alloc();
    for (format, line) in FORMATS {
        let run = usual_call(&rt, alloc, "run", format)?;
        let replay = usual_call(&rt, alloc, "replay", format)?;
        assert_eq!(rt; run.outcome.status, 0, "{format}");
        assert_eq!(rt; replay.outcome.status, 0, "{format}");
        assert!(rt; run.out.bytes() == replay.out.bytes(), "{format}");
        assert!(rt; has_line(run.out.bytes(), line), "{format}");
        let report = run.outcome.report.ok_or("no report")?;
        assert_accepted(&rt, &report);
    }
    Ok(())
}

// What a load writes.
fn load_over<R: Threads + Wait + Sync>(rt: &R, alloc: Global, words: &str) -> Result<Played, Fail> {
    let out = MemSink::new(alloc, 100_000, 100, Vec::new(alloc))?;
    run_into(
        rt,
        alloc,
        words,
        MemShelf::new(Vec::new(alloc), Vec::new(alloc)),
        out,
    )
}

#[test]
fn a_load_side_by_side_writes_what_a_load_writes(rt: HostRuntime) -> Result<(), Fail> {
    let alloc = rt.alloc();
    for words in ["load 1 1", "load 3 1", "load 4 300", "load 32 40"] {
        let alone = load_over(&rt, alloc, words)?;
        let side_by_side = load_over(&rt, alloc, format!(in alloc; "{words} --run")?.as_str())?;
        assert_eq!(rt; alone.outcome.status, 0, "{words}");
        assert_eq!(rt; side_by_side.outcome.status, 0, "{words}");
        assert!(rt; side_by_side.outcome.report.is_none(), "{words}");
        assert!(rt; !alone.out.bytes().is_empty(), "{words}");
        assert!(rt; alone.out.bytes() == side_by_side.out.bytes(), "{words}");
    }
    Ok(())
}
