//! How the answers of calls, flushes, readings and logs are told. The head of the table in `rows` says how they read.

use flush_cells::Pass;
use recorder::Polled;
use stat_defs::{
    Delta, Entry, FlushRecord, LastFlush, NoMemory, Part, ReadRecord, Reading, Reply, Verdict,
};
use std::alloc::Global;

pub(crate) fn verdict_text(alloc: Global, verdict: Verdict) -> Result<String, NoMemory> {
    Ok(match verdict {
        Verdict::Accepted(id) => format!(in alloc; "{}", id.0)?,
        Verdict::Opened(id) => format!(in alloc; "opened{}", id.0)?,
        Verdict::Released(id) => format!(in alloc; "released{}", id.0)?,
        Verdict::LabelTaken => format!(in alloc; "taken")?,
        Verdict::NoScope => format!(in alloc; "noscope")?,
        Verdict::Rejected => format!(in alloc; "rejected")?,
        Verdict::OverLimit => format!(in alloc; "overlimit")?,
        Verdict::NoRoom => format!(in alloc; "noroom")?,
    })
}

/// What an event came to: what the poll before it did, its verdict, and the star of a verdict that was held.
pub(crate) fn event_text(
    alloc: Global,
    polled: Polled,
    verdict: Verdict,
    star: &str,
) -> Result<String, NoMemory> {
    let turned = if polled.turned { "turned." } else { "" };
    let acked = if polled.acked { "acked." } else { "" };
    let verdict = verdict_text(alloc, verdict)?;
    Ok(format!(in alloc; "{turned}{acked}{verdict}{star}")?)
}

pub(crate) fn pass_text(alloc: Global, pass: Pass) -> Result<String, NoMemory> {
    Ok(match pass {
        Pass::Done => format!(in alloc; "done")?,
        Pass::Late(worker, word) => format!(in alloc; "late{worker}:{word}")?,
    })
}

// A text behind a list of texts, with a space between two.
fn put(list: &mut String, text: &str) -> Result<(), NoMemory> {
    if !list.is_empty() {
        list.push(' ')?;
    }
    list.push_str(text)?;
    Ok(())
}

fn put_words(
    alloc: Global,
    list: &mut String,
    words: &[Reading],
    sign: char,
) -> Result<(), NoMemory> {
    for read in words {
        put(
            list,
            format!(in alloc; "{}{sign}{}", read.id.0, read.word)?.as_str(),
        )?;
    }
    Ok(())
}

fn put_deltas(alloc: Global, list: &mut String, deltas: &[Delta]) -> Result<(), NoMemory> {
    for delta in deltas {
        put(
            list,
            format!(in alloc; "{}+{}", delta.id.0, delta.n)?.as_str(),
        )?;
    }
    Ok(())
}

fn part_text(alloc: Global, part: &Part) -> Result<String, NoMemory> {
    let mut text = format!(in alloc; "{}@{}", part.id.0, part.worker)?;
    for bin in part.bins.items() {
        let (val, exp, count) = (bin.bin.val, bin.bin.exp, bin.count);
        text.push_str(format!(in alloc; "({val},{exp})x{count}")?.as_str())?;
    }
    Ok(text)
}

/// The deltas, gauges and parts of a flush.
pub(crate) fn flush_text(alloc: Global, flush: &FlushRecord) -> Result<String, NoMemory> {
    let mut list = String::new(alloc);
    put_deltas(alloc, &mut list, flush.deltas.items())?;
    put_words(alloc, &mut list, flush.gauges.items(), '=')?;
    for part in flush.parts.items() {
        put(&mut list, part_text(alloc, part)?.as_str())?;
    }
    Ok(format!(in alloc; "[{list}]")?)
}

/// The counters and gauges of a reading.
pub(crate) fn read_text(alloc: Global, reading: &ReadRecord) -> Result<String, NoMemory> {
    let mut list = String::new(alloc);
    put_words(alloc, &mut list, reading.counters.items(), ':')?;
    put_words(alloc, &mut list, reading.gauges.items(), '=')?;
    Ok(format!(in alloc; "{{{list}}}")?)
}

// What an entry's reply says, by a letter and mostly a number.
fn reply_text(alloc: Global, reply: &Reply) -> Result<String, NoMemory> {
    Ok(match reply {
        Reply::Opened(id) => format!(in alloc; "o{}", id.0)?,
        Reply::Released(id) => format!(in alloc; "r{}", id.0)?,
        Reply::Made { id, numbers: _ } => format!(in alloc; "m{}", id.0)?,
        Reply::Found(id) => format!(in alloc; "f{}", id.0)?,
        Reply::Acked(tag) => format!(in alloc; "a{tag}")?,
        Reply::Swept(gone) => format!(in alloc; "s{gone}")?,
        Reply::TextSet => format!(in alloc; "t")?,
        Reply::Ended => format!(in alloc; "e")?,
        _ => format!(in alloc; "-")?,
    })
}

// Each entry of a log: its seat, and what its reply says.
fn log_text(alloc: Global, log: &[Entry]) -> Result<String, NoMemory> {
    let mut list = String::new(alloc);
    for entry in log {
        let reply = reply_text(alloc, &entry.reply)?;
        put(
            &mut list,
            format!(in alloc; "{}{reply}", entry.seat)?.as_str(),
        )?;
    }
    Ok(list)
}

/// The last flush and the log.
pub(crate) fn end_text(alloc: Global, end: &LastFlush) -> Result<String, NoMemory> {
    let last = flush_text(alloc, &end.last)?;
    let log = log_text(alloc, end.log.items())?;
    Ok(format!(in alloc; "{last} {log}")?)
}
