//! The bytes of scripts, pulled in pieces.
use super::*;
use event_script::write_event;
use load_scripts::{MAX_SCRIPTS, load_event};
use stats_io::{Pull, Source};
use std::alloc::Global;
use std::process::Abort;
use std::test::Fail;

// All bytes of a source, pulled into a buffer of 1 to 64 bytes.
fn pulled(alloc: Global, source: &mut ScriptSource, room: usize) -> Result<Vec<u8>, Fail> {
    let mut all = Vec::new(alloc);
    let mut buffer = [0; 64];
    let room = room.max(1).min(64);
    for _pull in 0..100_000_u32 {
        match source.pull(&mut buffer[..room]) {
            Pull::Bytes(count) => all.extend_from_slice(&buffer[..count.min(64)])?,
            Pull::End | Pull::Failed => return Ok(all),
        }
    }
    Ok(all)
}

// The lines of the first events of a script, written one by one.
fn written(alloc: Global, script: u32, events: u32) -> Result<Vec<u8>, Fail> {
    let script = script.min(MAX_SCRIPTS);
    let mut all = Vec::new(alloc);
    let mut x = u64::from(script);
    for _event in 0..events {
        let (event, next) = load_event(alloc, script, x)?;
        write_event(alloc, &event, &mut all)?;
        x = next;
    }
    Ok(all)
}

#[test]
fn first_lines(rt: HostRuntime) -> Result<(), Fail> {
    let rows = [
        (1, "rec root h5 43766\n"),
        (2, "inc root c123 526\n"),
        (3, "add root g3 acc 709\n"),
    ];
    for (script, line) in rows {
        let mut source = ScriptSource::new(script, 1);
        let all = pulled(rt.alloc(), &mut source, 64)?;
        assert!(rt; all.as_slice() == line.as_bytes(), "{line}");
    }
    Ok(())
}

#[test]
fn pieces(rt: HostRuntime) -> Result<(), Fail> {
    let alloc = rt.alloc();
    for (script, events, room) in [(1, 0, 1), (3, 1, 1), (3, 500, 7), (32, 500, 64)] {
        let mut source = ScriptSource::new(script, events);
        let all = pulled(alloc, &mut source, room)?;
        let lines = written(alloc, script, events)?;
        assert!(rt;
            all.as_slice() == lines.as_slice(),
            "{script} {events} {room}"
        );
        assert!(rt; source.pull(&mut [0; 4]) == Pull::End);
        assert!(rt; source.fault_count() == 0);
    }
    Ok(())
}
