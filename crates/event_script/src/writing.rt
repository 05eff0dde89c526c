//! Events, written as lines.
ghost use Rattle.std.specs.Prelude.{◌≡◌, ◌++◌, ◌∷◌, [], IfOk, OnOk, OnErr};
ghost use Rattle.event_script.specs.Grammar as grammar;
ghost use Rattle.event_script.specs.Grammar.{line_for};

use stat_defs::{Event, GaugeOp, Mode, NoMemory};
use std::alloc::Global;

fn op_word(op: GaugeOp) -> &'static [u8]
    ensures { result.now ≡ grammar.op_word op }
{
    match op {
        GaugeOp::Add => b"add",
        GaugeOp::Sub => b"sub",
        GaugeOp::Set => b"set",
    }
}

fn mode_word(mode: Mode) -> &'static [u8]
    ensures { result.now ≡ grammar.mode_word mode }
{
    match mode {
        Mode::Uninit => b"uninit",
        Mode::Accumulate => b"acc",
        Mode::Never => b"never",
    }
}

// The text for a prefix.
fn given_for(alloc: Global, prefix: &[u8]) -> Result<Vec<u8>, NoMemory>
    ensures { IfOk result (λ given. given.items ≡ grammar.given_for prefix.now) }
{
    if prefix.is_empty() {
        return Ok(b"-".to_vec(alloc)?);
    }
    let mut given = prefix.to_vec(alloc)?;
    if prefix.ends_with(b".") {
        given.push(b'.')?;
    }
    Ok(given)
}

// Adds a space and a part.
fn add_part(line: &mut Vec<u8>, part: &[u8]) -> Result<(), NoMemory>
    ensures { OnOk result (line.new.items ≡ line.old.items ++ 32 ∷ part.now) }
{
    line.push(b' ')?;
    line.extend_from_slice(part)?;
    Ok(())
}

// A word, a label and a name.
fn metric_line(alloc: Global, word: &[u8], label: &[u8], name: &[u8]) -> Result<Vec<u8>, NoMemory>
    ensures { IfOk result (λ line. line.items ≡ word.now ++ 32 ∷ (label.now ++ 32 ∷ name.now)) }
{
    let mut line = word.to_vec(alloc)?;
    add_part(&mut line, label)?;
    add_part(&mut line, name)?;
    Ok(line)
}

// The line of an event, without its newline.
fn line_of(alloc: Global, event: &Event) -> Result<Vec<u8>, NoMemory>
    ensures { IfOk result (λ line. line.items ≡ line_for event.now) }
{
    match event {
        Event::Inc { label, name, n } => {
            let mut line = metric_line(alloc, b"inc", label.bytes(), name.bytes())?;
            add_part(&mut line, n.to_string(alloc)?.as_bytes())?;
            Ok(line)
        }
        Event::Gauge {
            label,
            name,
            mode,
            op,
            n,
        } => {
            let mut line = metric_line(alloc, op_word(*op), label.bytes(), name.bytes())?;
            add_part(&mut line, mode_word(*mode))?;
            add_part(&mut line, n.to_string(alloc)?.as_bytes())?;
            Ok(line)
        }
        Event::Rec { label, name, v } => {
            let mut line = metric_line(alloc, b"rec", label.bytes(), name.bytes())?;
            add_part(&mut line, v.to_string(alloc)?.as_bytes())?;
            Ok(line)
        }
        Event::SetText { label, name, text } => {
            let mut line = metric_line(alloc, b"text", label.bytes(), name.bytes())?;
            add_part(&mut line, text.bytes())?;
            Ok(line)
        }
        Event::OpenScope { label, prefix } => {
            let given = given_for(alloc, prefix.bytes())?;
            metric_line(alloc, b"open", label.bytes(), &given)
        }
        Event::Release { label } => {
            let mut line = b"release".to_vec(alloc)?;
            add_part(&mut line, label.bytes())?;
            Ok(line)
        }
    }
}

/// Adds the line of an event, with its newline. Where the event is lawful, reading the line gives the event
/// ([`written_events_are_read`](crate::written_events_are_read)). Without memory nothing is added.
pub fn write_event(alloc: Global, event: &Event, out: &mut Vec<u8>) -> Result<(), NoMemory>
    ensures written { OnOk result (out.new.items ≡ out.old.items ++ (line_for event.now ++ 10 ∷ [])) }
    ensures kept { OnErr result (out.new.items ≡ out.old.items) }
{
    let mut line = line_of(alloc, event)?;
    line.push(b'\n')?;
    out.extend_from_slice(&line)?;
    Ok(())
}
