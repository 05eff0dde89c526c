//! Books of two workers, each driven by the lines of a script.
ghost use Rattle.std.specs.Prelude.{◌≡◌, ◌<◌, ◌≤◌, false, IfOk, OnOk, IsTrue, get_or};
ghost use Rattle.std.specs.List.{list_all};
ghost use Rattle.stat_defs.specs.Names as names;
ghost use Rattle.stat_defs.specs.Names.{IsLocalName, IsScopePrefix};
ghost use Rattle.stat_defs.specs.Configs.{IsConfig, IsMatchSpec};
ghost use Rattle.stat_defs.specs.Keys.{same_key};
ghost use Rattle.book_state.specs.declared.limits.TheConstants.{MAX_OPENINGS};
ghost use Rattle.book_state.specs.Step.{Working, Works};
ghost use Rattle.stat_book.specs.Calls.{state_of, openings_by};
ghost use Rattle.book_state.specs.SeatLaws.{is_end};
ghost use Rattle.book_tests.specs.Free.{has_ended, has_used, uses_key, rank, is_from, has_from};
ghost use Rattle.book_tests.specs.Tried.{tried_config, tried_list};

use name_map::HashKey;
use stat_book::Book;
use stat_defs::{
    Call, Config, Entry, Key, Kind, Life, List, MAX_NAME_BYTES, MatchSpec, MetricId, Mode,
    NoMemory, Pattern, Reply, ScopeSpec, Txt, Verdict, is_name_byte,
};
use std::alloc::Global;
use std::process::Abort;
use std::test::Fail;
use tag_rules::{Matcher, RegexMaker, TagRules, config_law};

// The scope `root` alone.
fn config(alloc: Global, matcher: MatchSpec) -> Result<Config, NoMemory>
    ensures { IfOk result (λ config. config ≡ tried_config matcher) }
{
    let root = ScopeSpec {
        label: Txt::of(alloc, b"root")?,
        prefix: Txt::of(alloc, b"")?,
    };
    Ok(Config {
        tags: List::of(Vec::new(alloc)),
        tag_paths: List::of(Vec::new(alloc)),
        matcher,
        buckets: List::of(Vec::new(alloc)),
        statsd_prefix: Txt::of(alloc, b"envoy")?,
        scopes: List::of(vec![in alloc; root]?),
        flushes: 0,
        flush_every: 1000,
        reads: 0,
    })
}

fn book_of(alloc: Global, config: &Config) -> Result<Book, Fail>
    requires { IsConfig config.now }
    ensures { IfOk result (λ book. book.workers ≡ 2) }
{
    config_law();
    let mut maker = RegexMaker::new(Vec::new(alloc));
    let rules = TagRules::build(alloc, &mut maker, config.tags.items())?;
    let matcher = Matcher::build(alloc, &mut maker, &config.matcher)?;
    let key = HashKey::of(7);
    Ok(Book::with_key(alloc, key, config, rules, matcher, 2)?)
}

#[tactic(auto, using(crate::proofs::TriedConfig::lawful_config))]
fn book(alloc: Global, matcher: MatchSpec) -> Result<Book, Fail>
    requires { IsMatchSpec matcher }
    ensures { IfOk result (λ book. book.workers ≡ 2) }
{
    let config = config(alloc, matcher)?;
    book_of(alloc, &config)
}

fn has_name_bytes(text: &[u8]) -> bool
    ensures { result ≡ list_all names.is_name_byte text.now }
{
    text.iter().all(|b| is_name_byte(*b))
}

fn is_prefix(text: &[u8]) -> bool
    ensures { IsTrue result → IsScopePrefix text.now }
{
    if text.len() > MAX_NAME_BYTES {
        return false;
    }
    has_name_bytes(text)
}

fn is_name(text: &[u8]) -> bool
    ensures { IsTrue result → IsLocalName text.now }
{
    if text.is_empty() || text.len() > MAX_NAME_BYTES {
        return false;
    }
    has_name_bytes(text)
}

fn is_end(call: &Call) -> bool
    ensures { result ≡ is_end call.now }
{
    matches!(call, Call::End)
}

fn has_ended(log: &[Entry], seat: u32) -> bool
    ensures { result ≡ has_ended seat log.now }
{
    log.iter()
        .any(|entry| entry.seat == seat && is_end(&entry.call))
}

fn is_key(one: &Key, other: &Key) -> bool
    ensures { result ≡ same_key one.now other.now }
{
    one == other
}

fn uses_key(key: &Key, call: &Call) -> bool
    ensures { result ≡ uses_key key.now call.now }
{
    match call {
        Call::End => true,
        Call::Find { key: other } => is_key(other, key),
        _ => false,
    }
}

fn has_used(log: &[Entry], seat: u32, key: &Key) -> bool
    ensures { result ≡ has_used seat key.now log.now }
{
    log.iter()
        .any(|entry| entry.seat == seat && uses_key(key, &entry.call))
}

fn word(line: &str, at: usize) -> &str {
    line.split(' ').nth(at).unwrap_or("")
}

fn kind_of(word: &str) -> (Kind, Mode) {
    match word {
        "gauge" => (Kind::Gauge, Mode::Uninit),
        "accumulate" => (Kind::Gauge, Mode::Accumulate),
        "never" => (Kind::Gauge, Mode::Never),
        "histogram" => (Kind::Histogram, Mode::Uninit),
        _ => (Kind::Counter, Mode::Uninit),
    }
}

// A seat of the two workers that has not ended may call.
#[tactic(auto, using(crate::proofs::Freedom::may_call))]
fn works(book: &Book, seat: u32) -> bool
    requires { book.now.workers ≡ 2 }
    ensures { IsTrue result → Works (state_of book.now) seat }
{
    if seat == 0 || seat > 2 {
        return false;
    }
    !has_ended(book.log(), seat)
}

#[tactic(auto, using(crate::proofs::Freedom::may_ack))]
fn is_due(book: &Book, seat: u32) -> bool
    requires { Works (state_of book.now) seat }
    ensures { IsTrue result → Working (state_of book.now) seat (λ row. row.tag < (state_of book.now).releases) }
{
    book.is_due(seat)
}

#[tactic(auto, using(crate::proofs::Freedom::few_opened))]
fn has_room(book: &Book, seat: u32) -> bool
    ensures { IsTrue result → openings_by seat book.now.log < MAX_OPENINGS }
{
    book.log().len() < 1000
}

#[tactic(auto, using(crate::proofs::Freedom::may_find))]
fn find(rt: &impl Abort, alloc: Global, book: &mut Book, seat: u32, key: &Key) -> Result<(), Fail>
    requires { book.old.workers ≡ 2 }
    ensures { OnOk result (book.new.workers ≡ 2) }
{
    assert!(rt; seat == 1 || seat == 2);
    assert!(rt; is_name(key.name.bytes()));
    assert!(rt; !has_used(book.log(), seat, key));
    let answer = book.find(alloc, seat, key)?;
    assert!(rt; answer.scope.is_none() == (answer.verdict == Verdict::NoScope));
    Ok(())
}

fn open(
    rt: &impl Abort,
    alloc: Global,
    book: &mut Book,
    seat: u32,
    label: &Txt,
    prefix: &Txt,
) -> Result<(), Fail>
    requires { book.old.workers ≡ 2 }
    ensures { OnOk result (book.new.workers ≡ 2) }
{
    assert!(rt; works(book, seat));
    assert!(rt; is_prefix(prefix.bytes()));
    assert!(rt; has_room(book, seat));
    let _opened = book.open(alloc, seat, label, prefix)?;
    Ok(())
}

fn release(
    rt: &impl Abort,
    alloc: Global,
    book: &mut Book,
    seat: u32,
    label: &Txt,
) -> Result<(), Fail>
    requires { book.old.workers ≡ 2 }
    ensures { OnOk result (book.new.workers ≡ 2) }
{
    assert!(rt; works(book, seat));
    let _released = book.release(alloc, seat, label)?;
    Ok(())
}

fn end(rt: &impl Abort, alloc: Global, book: &mut Book, seat: u32) -> Result<(), Fail>
    requires { book.old.workers ≡ 2 }
    ensures { OnOk result (book.new.workers ≡ 2) }
{
    assert!(rt; works(book, seat));
    book.end(alloc, seat)?;
    Ok(())
}

fn ack(rt: &impl Abort, alloc: Global, book: &mut Book, seat: u32) -> Result<(), Fail>
    requires { book.old.workers ≡ 2 }
    ensures { OnOk result (book.new.workers ≡ 2) }
{
    assert!(rt; works(book, seat));
    assert!(rt; is_due(book, seat));
    let _acked = book.ack(alloc, seat)?;
    Ok(())
}

fn sweep(alloc: Global, book: &mut Book) -> Result<(), Fail>
    requires { book.old.workers ≡ 2 }
    ensures { OnOk result (book.new.workers ≡ 2) }
{
    let _swept = book.sweep(alloc)?;
    Ok(())
}

// A line: `1 open s t`, `1 release s`, `1 counter s u` with the other kinds, `1 ack`, `1 end` or `0 sweep`.
fn apply(rt: &impl Abort, alloc: Global, book: &mut Book, line: &str) -> Result<(), Fail>
    requires { book.old.workers ≡ 2 }
    ensures { OnOk result (book.new.workers ≡ 2) }
{
    let seat = word(line, 0).parse::<u32>().unwrap_or(0);
    let label = Txt::of(alloc, word(line, 2).as_bytes())?;
    let name = Txt::of(alloc, word(line, 3).as_bytes())?;
    match word(line, 1) {
        "open" => open(rt, alloc, book, seat, &label, &name),
        "release" => release(rt, alloc, book, seat, &label),
        "ack" => ack(rt, alloc, book, seat),
        "end" => end(rt, alloc, book, seat),
        "sweep" => sweep(alloc, book),
        call => {
            let (kind, mode) = kind_of(call);
            let key = Key {
                label,
                kind,
                mode,
                name,
            };
            find(rt, alloc, book, seat, &key)
        }
    }
}

fn told(alloc: Global, reply: &Reply) -> Result<String, Fail> {
    Ok(match reply {
        Reply::Opened(id) => format!(in alloc; "opened {}", id.0)?,
        Reply::LabelTaken => String::from_str(alloc, "label taken")?,
        Reply::Released(id) => format!(in alloc; "released {}", id.0)?,
        Reply::NoScope => String::from_str(alloc, "no scope")?,
        Reply::Made { id, numbers } => told_made(alloc, *id, numbers.items())?,
        Reply::Found(id) => format!(in alloc; "found {}", id.0)?,
        Reply::Rejected => String::from_str(alloc, "rejected")?,
        Reply::OverLimit => String::from_str(alloc, "over limit")?,
        Reply::NoRoom => String::from_str(alloc, "no room")?,
        Reply::TextSet => String::from_str(alloc, "text set")?,
        Reply::Acked(tag) => format!(in alloc; "acked {tag}")?,
        Reply::Swept(gone) => format!(in alloc; "swept {gone}")?,
        Reply::Ended => String::from_str(alloc, "ended")?,
    })
}

fn told_made(alloc: Global, id: MetricId, numbers: &[u32]) -> Result<String, Fail> {
    let mut text = format!(in alloc; "made {}:", id.0)?;
    for n in numbers {
        text.push_str(format!(in alloc; " {n}")?.as_str())?;
    }
    Ok(text)
}

fn told_last(alloc: Global, log: &[Entry]) -> Result<String, Fail> {
    match log.last() {
        Some(entry) => told(alloc, &entry.reply),
        None => Ok(String::new(alloc)),
    }
}

// The replies to a script's lines.
fn play(rt: &impl Abort, alloc: Global, book: &mut Book, script: &str) -> Result<String, Fail>
    requires { book.old.workers ≡ 2 }
    ensures { OnOk result (book.new.workers ≡ 2) }
{
    let mut text = String::new(alloc);
    for line in script.split('\n') {
        apply(rt, alloc, book, line)?;
        text.push_str(told_last(alloc, book.log())?.as_str())?;
        text.push('\n')?;
    }
    Ok(text)
}

// The lives and modes of all metrics.
fn told_metrics(alloc: Global, book: &Book) -> Result<String, Fail> {
    let mut text = String::new(alloc);
    for id in 0..book.made() {
        let metric = book.metric(MetricId(id));
        text.push_str(match metric.life {
            Life::Live => "live",
            Life::Retired(_) => "retired",
            Life::Gone => "gone",
        })?;
        text.push_str(match metric.mode {
            Mode::Uninit => " ",
            Mode::Accumulate => " accumulate ",
            Mode::Never => " never ",
        })?;
    }
    Ok(text)
}

fn check_book(
    rt: &impl Abort,
    alloc: Global,
    book: &mut Book,
    script: &str,
    replies: &str,
    metrics: &str,
) -> Result<(), Fail>
    requires { book.old.workers ≡ 2 }
{
    let text = play(rt, alloc, book, script)?;
    assert_eq!(rt; text.as_str(), replies);
    let text = told_metrics(alloc, book)?;
    assert_eq!(rt; text.as_str(), metrics);
    Ok(())
}

// What a script over `root` comes to: the replies, the metrics, and how many symbols are in use. A book is dropped by
// name, since each place where it is dropped by itself takes the prover most of a minute.
fn check(
    rt: &impl Abort,
    alloc: Global,
    script: &str,
    replies: &str,
    metrics: &str,
    symbols: u32,
) -> Result<(), Fail> {
    let mut book = book(alloc, MatchSpec::AdmitAll)?;
    let checked = check_book(rt, alloc, &mut book, script, replies, metrics);
    assert_eq!(rt; book.symbols().numbers_in_use(), symbols);
    drop(book);
    checked
}

const WAITS: &str = "1 open s t
1 counter s u
1 release s
1 ack
0 sweep
1 counter root w
2 ack
0 sweep
1 counter root x";

const WAITED: &str = "opened 1
made 0: 1 2
released 1
acked 1
swept 0
made 1: 3
acked 1
swept 1
made 2: 1
";

const FINDS_AGAIN: &str = "1 open s t
1 counter s u
1 release s
1 open s2 t
1 counter s2 u
1 ack
2 ack
0 sweep";

const FOUND_AGAIN: &str = "opened 1
made 0: 1 2
released 1
opened 2
found 0
acked 1
acked 1
swept 0
";

#[test]
fn sweeps_wait_for_all(rt: HostRuntime) -> Result<(), Fail> {
    check(&rt, rt.alloc(), WAITS, WAITED, "gone live live ", 2)?;
    check(&rt, rt.alloc(), FINDS_AGAIN, FOUND_AGAIN, "live ", 2)
}

const SHARES: &str = "1 open p cluster.c
1 open p cluster.c
1 open q cluster.c
1 counter p n
1 counter q n
1 release p
1 ack
1 end
2 end
0 sweep";

const SHARED: &str = "opened 1
label taken
opened 2
made 0: 1 2 3
found 0
released 1
acked 1
ended
ended
swept 0
";

const GOES_LAST: &str = "1 open s t
1 counter s u
1 release s
1 release s
1 ack
2 counter s u
1 end
2 end
0 sweep";

const GONE_LAST: &str = "opened 1
made 0: 1 2
released 1
no scope
acked 1
no scope
ended
ended
swept 1
";

#[test]
fn names_share_symbols(rt: HostRuntime) -> Result<(), Fail> {
    check(&rt, rt.alloc(), SHARES, SHARED, "live ", 3)?;
    check(&rt, rt.alloc(), GOES_LAST, GONE_LAST, "gone ", 0)
}

const MODES: &str = "1 gauge root g
1 never root g
2 accumulate root g
2 counter root g";

const MODE: &str = "made 0: 1
found 0
found 0
made 1: 1
";

#[test]
fn keeps_the_first_mode(rt: HostRuntime) -> Result<(), Fail> {
    check(&rt, rt.alloc(), MODES, MODE, "live never live ", 1)
}

fn check_replies(
    rt: &impl Abort,
    alloc: Global,
    book: &mut Book,
    script: &str,
    replies: &str,
) -> Result<(), Fail>
    requires { book.old.workers ≡ 2 }
{
    let text = play(rt, alloc, book, script)?;
    assert_eq!(rt; text.as_str(), replies);
    Ok(())
}

const REJECTS: &str = "1 counter root x
1 counter none y";

#[test]
fn rejects_a_name(rt: HostRuntime) -> Result<(), Fail> {
    let mut book = book(rt.alloc(), MatchSpec::RejectAll)?;
    let checked = check_replies(&rt, rt.alloc(), &mut book, REJECTS, "rejected\nno scope\n");
    drop(book);
    checked
}

// Admits the names that begin with `cluster.` alone.
fn clusters(alloc: Global) -> Result<MatchSpec, NoMemory>
    ensures { IfOk result (λ matcher. matcher ≡ tried_list) }
{
    let prefix = Pattern::Prefix(Txt::of(alloc, b"cluster.")?);
    Ok(MatchSpec::Include(List::of(vec![in alloc; prefix]?)))
}

#[tactic(auto, using(crate::proofs::TriedConfig::lawful_list))]
fn book_of_clusters(alloc: Global) -> Result<Book, Fail>
    ensures { IfOk result (λ book. book.workers ≡ 2) }
{
    let matcher = clusters(alloc)?;
    book(alloc, matcher)
}

const LISTED: &str = "1 counter root cluster.x
1 counter root server.y
2 counter root cluster.x
2 counter root server.y";

const INCLUDED: &str = "made 0: 1 2
rejected
found 0
rejected
";

#[test]
fn rejects_what_is_not_included(rt: HostRuntime) -> Result<(), Fail> {
    let mut book = book_of_clusters(rt.alloc())?;
    let checked = check_replies(&rt, rt.alloc(), &mut book, LISTED, INCLUDED);
    drop(book);
    checked
}

// Finds this many histograms.
fn find_many(rt: &impl Abort, alloc: Global, book: &mut Book, count: u32) -> Result<(), Fail>
    requires { book.old.workers ≡ 2 }
    ensures { OnOk result (book.new.workers ≡ 2) }
{
    for i in 0..count {
        let line = format!(in alloc; "1 histogram root h{i}")?;
        apply(rt, alloc, book, line.as_str())?;
    }
    Ok(())
}

fn check_histograms(rt: &impl Abort, alloc: Global, book: &mut Book) -> Result<(), Fail>
    requires { book.old.workers ≡ 2 }
{
    find_many(rt, alloc, book, 1_025)?;
    let text = told_last(alloc, book.log())?;
    assert_eq!(rt; text.as_str(), "over limit");
    let text = play(rt, alloc, book, "1 counter root c")?;
    assert_eq!(rt; text.as_str(), "made 1024: 1025\n");
    Ok(())
}

#[test]
fn limits_histograms(rt: HostRuntime) -> Result<(), Fail> {
    let mut book = book(rt.alloc(), MatchSpec::AdmitAll)?;
    let checked = check_histograms(&rt, rt.alloc(), &mut book);
    drop(book);
    checked
}

fn byte_at(name: &[u8], at: usize) -> u32
    ensures byte { result ≡ get_or name.now at 0 }
    ensures small { result < 256 }
{
    match name.get(at) {
        Some(b) => u32::from(*b),
        None => 0,
    }
}

// The first three bytes of a name, as one number.
fn rank(key: &Key) -> u32
    ensures rank { result ≡ rank key.now }
    ensures small { result < 16_777_216 }
{
    let name = key.name.bytes();
    byte_at(name, 0) * 65_536 + byte_at(name, 1) * 256 + byte_at(name, 2)
}

fn is_from(least: u32, call: &Call) -> bool
    ensures { result ≡ is_from least call.now }
{
    match call {
        Call::End => true,
        Call::Find { key } => least <= rank(key),
        _ => false,
    }
}

fn has_from(log: &[Entry], seat: u32, least: u32) -> bool
    ensures { result ≡ has_from seat least log.now }
{
    log.iter()
        .any(|entry| entry.seat == seat && is_from(least, &entry.call))
}

fn counter(alloc: Global, i: u32) -> Result<Key, NoMemory> {
    let name = [
        b'0' + (i / 4_096 % 64) as u8,
        b'0' + (i / 64 % 64) as u8,
        b'0' + (i % 64) as u8,
    ];
    Ok(Key {
        label: Txt::of(alloc, b"root")?,
        kind: Kind::Counter,
        mode: Mode::Uninit,
        name: Txt::of(alloc, &name)?,
    })
}

// The rank of a key, which is this one at least.
fn higher_rank(rt: &impl Abort, least: u32, key: &Key) -> u32
    ensures rank { result ≡ rank key.now }
    ensures higher { least ≤ result }
    ensures small { result < 16_777_216 }
{
    let rank = rank(key);
    assert!(rt; least <= rank);
    rank
}

// Finds a key of a higher rank than all that seat 1 found. The result is the least rank that is higher still.
fn find_next(
    rt: &impl Abort,
    alloc: Global,
    book: &mut Book,
    least: u32,
    key: &Key,
) -> Result<u32, Fail>
    requires workers { book.old.workers ≡ 2 }
    requires free { has_from 1 least book.old.log ≡ false }
    ensures workers { OnOk result (book.new.workers ≡ 2) }
    ensures free { IfOk result (λ next. has_from 1 next book.new.log ≡ false) }
{
    let rank = higher_rank(rt, least, key);
    assert!(rt; is_name(key.name.bytes()));
    let _answer = book.find(alloc, 1, key)?;
    Ok(rank + 1)
}

// Finds this many counters, whose names have three bytes.
fn find_counters(rt: &impl Abort, alloc: Global, book: &mut Book, count: u32) -> Result<(), Fail>
    requires { book.old.workers ≡ 2 }
    ensures { OnOk result (book.new.workers ≡ 2) }
{
    let mut least = 0;
    assert!(rt; !has_from(book.log(), 1, least));
    for i in 0..count {
        let key = counter(alloc, i)?;
        least = find_next(rt, alloc, book, least, &key)?;
    }
    Ok(())
}

fn check_metrics(rt: &impl Abort, alloc: Global, book: &mut Book) -> Result<(), Fail>
    requires { book.old.workers ≡ 2 }
{
    find_counters(rt, alloc, book, 16_385)?;
    let text = told_last(alloc, book.log())?;
    assert_eq!(rt; text.as_str(), "no room");
    assert_eq!(rt; book.made(), 16_384);
    let text = play(rt, alloc, book, "2 counter root 3oo\n2 counter root 400")?;
    assert_eq!(rt; text.as_str(), "found 16383\nno room\n");
    Ok(())
}

#[test]
fn limits_metrics(rt: HostRuntime) -> Result<(), Fail> {
    let mut book = book(rt.alloc(), MatchSpec::AdmitAll)?;
    let checked = check_metrics(&rt, rt.alloc(), &mut book);
    drop(book);
    checked
}
