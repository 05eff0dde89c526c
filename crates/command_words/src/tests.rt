//! Command lines, and the commands that they say.
use super::*;
use output_options::Format;
use std::alloc::Global;
use std::process::Abort;
use std::test::Fail;

// Rows of a command, or `none`, and of the words that say it, parted by spaces; `''` is an empty word.
const ROWS: &str = "\
none |
none | ''
replay statsd - f | replay - f
run statsd - f | run - f
replay statsd - - | replay - -
replay statsd b f g h | replay b f g h
replay admin - f | replay - f --format=admin
replay admin - f | replay - f --format admin
replay prom - f | replay --format prom - f
replay prom - f | replay - --format prom f
replay statsd - f | replay --format statsd - f
replay statsd symbols - f | replay --symbols - f
replay statsd symbols - f g | replay - f --symbols g
run prom symbols b f | run b --symbols f --format=prom
replay statsd - f | replay -- - f
replay statsd -b -f | replay -- -b -f
replay statsd -- -- | replay -- -- --
replay statsd - --symbols | replay - -- --symbols
replay statsd - f --format=prom | replay - f -- --format=prom
replay admin - f -- | replay --format admin - f -- --
none | -- replay - f
none | --symbols replay - f
none | replay
none | replay -
none | replay -- -
none | replay '' f
none | replay - ''
none | replay - f ''
none | replay -- - ''
none | replay -f f
none | replay - -f
none | replay - -é
replay statsd - f | replay - f --
none | replay - f - --x
none | replay --symbols --symbols - f
none | replay --symbols - f --symbols
none | replay --symbols=x - f
none | replay --symbols= - f
none | replay --symbol - f
none | replay -symbols - f
none | replay --format
none | replay - f --format
none | replay --format - f
none | replay --format -- - f
none | replay --format --symbols - f
none | replay --format= - f
none | replay --format=x - f
none | replay --format Prom - f
none | replay --format=prom=prom - f
none | replay --format prom --format prom - f
none | replay --format=prom - f --format=admin
none | replay --format prom - f --format -- prom
none | replay --run - f
none | replay --help
none | run -h
none | run --version
none | run -V
none | replays - f
check - | check -
check b | check b
check -b | check -- -b
none | check
none | check ''
none | check - -
none | check --symbols -
none | check --run -
none | check - --format admin
bins 0 | bins 0
bins 1 18446744073709551615 7 | bins 1 18446744073709551615 7
bins 5 | bins -- 5
none | bins
none | bins 01
none | bins 00
none | bins +1
none | bins -1
none | bins -- -1
none | bins 1 x
none | bins 1 ''
none | bins 18446744073709551616
none | bins --run 1
load 3 1 | load 3 1
load side-by-side 3 1 | load --run 3 1
load side-by-side 3 1 | load 3 1 --run
load side-by-side 3 1 | load 3 --run 1
load 32 131072 | load 32 131072
none | load 0 1
none | load 33 1
none | load 1 0
none | load 1 131073
none | load 01 1
none | load 1
none | load 1 1 1
none | load --run --run 1 1
none | load --symbols 1 1
none | load --format statsd 1 1
none | load --run=x 1 1";

fn format_name(format: Format) -> &'static str {
    match format {
        Format::Statsd => "statsd",
        Format::Prom => "prom",
        Format::Admin => "admin",
    }
}

fn reporting_text(alloc: Global, name: &str, asked: &Reporting) -> Result<String, Fail> {
    let mut text = format!(in alloc; "{name} {}", format_name(asked.options.format))?;
    if asked.options.symbols {
        text.push_str(" symbols")?;
    }
    text.push(' ')?;
    text.push_str(asked.boot.as_str())?;
    for file in &asked.files {
        text.push(' ')?;
        text.push_str(file.as_str())?;
    }
    Ok(text)
}

fn bins_text(alloc: Global, values: &[u64]) -> Result<String, Fail> {
    let mut text = String::from_str(alloc, "bins")?;
    for value in values {
        text.push(' ')?;
        text.push_str(format!(in alloc; "{value}")?.as_str())?;
    }
    Ok(text)
}

fn load_text(alloc: Global, asked: Load) -> Result<String, Fail> {
    let how = if asked.run { " side-by-side" } else { "" };
    Ok(format!(in alloc; "load{how} {} {}", asked.scripts, asked.events)?)
}

fn command_text(alloc: Global, command: &Option<Command>) -> Result<String, Fail> {
    match command {
        None => Ok(String::from_str(alloc, "none")?),
        Some(Command::Run(asked)) => reporting_text(alloc, "run", asked),
        Some(Command::Replay(asked)) => reporting_text(alloc, "replay", asked),
        Some(Command::Check { boot }) => Ok(format!(in alloc; "check {}", boot.as_str())?),
        Some(Command::Bins { values }) => bins_text(alloc, values),
        Some(Command::Load(asked)) => load_text(alloc, *asked),
    }
}

// Words parted by spaces; `''` is an empty word.
fn words_of(alloc: Global, text: &str) -> Result<Vec<String>, Fail> {
    let mut words = Vec::new(alloc);
    for word in text.split(' ') {
        let word = if word == "''" { "" } else { word };
        words.push(String::from_str(alloc, word)?)?;
    }
    Ok(words)
}

#[test]
fn commands_and_what_is_none(rt: HostRuntime) -> Result<(), Fail> {
    let alloc = rt.alloc();
    for row in ROWS.split('\n') {
        let (wanted, text) = row.split_once(" | ").unwrap_or(("none", ""));
        let command = command_of(alloc, &words_of(alloc, text)?)?;
        assert!(rt; command_text(alloc, &command)?.as_str() == wanted, "{row}");
    }
    assert!(rt; command_of(alloc, &[])?.is_none());
    Ok(())
}

// These words, and `count` times the word `1`.
fn many(alloc: Global, start: &str, count: usize) -> Result<Vec<String>, Fail> {
    let mut words = words_of(alloc, start)?;
    for _word in 0..count {
        words.push(String::from_str(alloc, "1")?)?;
    }
    Ok(words)
}

#[test]
fn limits(rt: HostRuntime) -> Result<(), Fail> {
    let alloc = rt.alloc();
    let rows = [
        ("run -", 32, 33),
        ("replay - --symbols", 32, 33),
        ("bins", 64, 65),
    ];
    for (start, most, more) in rows {
        assert!(rt;
            command_of(alloc, &many(alloc, start, most)?)?.is_some(),
            "{start}"
        );
        assert!(rt;
            command_of(alloc, &many(alloc, start, more)?)?.is_none(),
            "{start}"
        );
    }
    // Files on both sides of an option are counted together.
    let mut words = many(alloc, "run -", 32)?;
    words.push(String::from_str(alloc, "--symbols")?)?;
    assert!(rt; command_of(alloc, &words)?.is_some());
    words.push(String::from_str(alloc, "f")?)?;
    assert!(rt; command_of(alloc, &words)?.is_none());
    Ok(())
}
