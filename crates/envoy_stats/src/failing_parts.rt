//! Rows of `run` and of `replay` over the same files, which write the same: an opening, a pull or a push fails, or a line
//! is one that nobody writes.
ghost use Rattle.std.specs.Prelude.{◌≤◌, IfOk};

use crate::envoy_stats_with;
use name_map::HashKey;
use stats_io::{MemFile, MemShelf, MemSink, Push, Sink};
use std::alloc::Global;
use std::process::Abort;
use std::sync::Wait;
use std::test::Fail;
use std::thread::Threads;
use tag_rules::RegexMaker;
use test_support::{Played, Wanted, words_of};

// Rows of two lines, parted by an empty line. The first line has the words behind the command, the files `f1` and `f2`,
// and what fails: an opening, a pull of a file, or a push of `out` or `err`, each with its number from 0. The second one
// has the status, standard output, and standard error, where `?` is any. In files and outputs `/` stands for a newline,
// `^` for the byte 0, `~` for 255, and `*` for 1,023 times `#`.
const ROWS: &str = "\
- f1 f2 | inc root a 1/inc root b 2/ | inc root a 4/ | none
0 | # last/envoy.a:5|c/envoy.b:2|c/# worker 1: 2 accepted, 0 dropped/# worker 2: 1 accepted, 0 dropped/ | \n
- f1 f2 | inc root a 1/inc root b 2/ | inc root a 4/ | open 0
4 | # last/envoy.a:4|c/# worker 1: 0 accepted, 0 dropped/# worker 2: 1 accepted, 0 dropped/ | file 1: not opened/\n
- f1 f2 | inc root a 1/inc root b 2/ | inc root a 4/ | f1 0
4 | # last/envoy.a:4|c/# worker 1: 0 accepted, 0 dropped/# worker 2: 1 accepted, 0 dropped/ | file 1: read failed/\n
- f1 f2 | inc root a 1/inc root b 2/ | inc root a 4/ | f1 1
4 | # last/envoy.a:5|c/envoy.b:2|c/# worker 1: 2 accepted, 0 dropped/# worker 2: 1 accepted, 0 dropped/ | file 1: read failed/\n
- f1 f2 | inc root a 1/inc root b 2 | inc root a 4/ | f1 1
4 | # last/envoy.a:5|c/# worker 1: 1 accepted, 0 dropped/# worker 2: 1 accepted, 0 dropped/ | file 1: read failed/\n
- f1 f2 | inc root a 1/inc root b 2/ | inc root a 4/ | f1 0, f2 0
4 | # last/# worker 1: 0 accepted, 0 dropped/# worker 2: 0 accepted, 0 dropped/ | file 1: read failed/file 2: read failed/\n
- f1 f2 | inc root a 1/inc root b 2/ | inc root a 4/ | f1 0, out 0
5 |  | file 1: read failed/write failed/\n
- f1 f2 | inc root a 1/inc root b 2/ | inc root a 4/ | out 0, err 0
5 |  | ?\n
f1 f2 | {} | inc root a 4/ | f1 0
4 |  | boot: read failed/\n
f1 f2 | {} | inc root a 4/ | f1 1
4 |  | boot: read failed/\n
f1 f2 | {} | inc root a 4/ | open 0
4 |  | boot: read failed/\n
f1 f2 | {} | inc root a 4/ | open 1
4 | # last/# worker 1: 0 accepted, 0 dropped/ | file 1: not opened/\n
- f1 f2 | inc root a 1/inc root b^ 2/inc root a 8/ | inc root a 4/ | none
3 | # last/envoy.a:5|c/# worker 1: 1 accepted, 0 dropped/# worker 2: 1 accepted, 0 dropped/ | file 1 line 2: no event/\n
- f1 f2 | inc root a 1/~inc root b 2/inc root a 8/ | text root t ~/ | none
3 | # last/envoy.a:1|c/# worker 1: 1 accepted, 0 dropped/# worker 2: 0 accepted, 0 dropped/ | file 1 line 2: no event/file 2 line 1: no event/\n
- f1 f2 | #*/inc root a 1/ | #^~/inc root a 4/ | none
0 | # last/envoy.a:5|c/# worker 1: 1 accepted, 0 dropped/# worker 2: 1 accepted, 0 dropped/ | \n
- f1 f2 | ##*/inc root a 1/ | inc root a 4/ | none
3 | # last/envoy.a:4|c/# worker 1: 0 accepted, 0 dropped/# worker 2: 1 accepted, 0 dropped/ | file 1 line 1: line too long/";

// What stands before the next bar, which it takes out of a line.
fn part<'a>(line: &mut &'a str) -> &'a str {
    let all = *line;
    let (first, behind) = all.split_once(" | ").unwrap_or((all, ""));
    *line = behind;
    first
}

fn digit_of(text: &str) -> u64 {
    match text {
        "0" => 0,
        "1" => 1,
        "3" => 3,
        "4" => 4,
        "5" => 5,
        _ => 99,
    }
}

// The number of the call of this part that fails, and 99 where none does.
fn failing(fails: &str, part: &str) -> u64 {
    for fail in fails.split(',') {
        let (name, number) = fail.trim().split_once(' ').unwrap_or(("", ""));
        if name == part {
            return digit_of(number);
        }
    }
    99
}

fn spelled_out(alloc: Global, text: &str) -> Result<Vec<u8>, Fail> {
    let mut bytes = Vec::new(alloc);
    for b in text.as_bytes() {
        match *b {
            b'/' => bytes.push(b'\n')?,
            b'^' => bytes.push(0)?,
            b'~' => bytes.push(255)?,
            b'*' => {
                for _ in 0..1_023u32 {
                    bytes.push(b'#')?;
                }
            }
            other => bytes.push(other)?,
        }
    }
    Ok(bytes)
}

// A file that is given in pieces of 64 bytes.
fn file_of(alloc: Global, name: &str, text: &str, fails: &str) -> Result<MemFile, Fail>
    ensures { IfOk result (λ file. 1 ≤ file.piece) }
{
    Ok(MemFile {
        name: String::from_str(alloc, name)?,
        bytes: spelled_out(alloc, text)?,
        piece: 64,
        fails: vec![in alloc; failing(fails, name)]?,
    })
}

fn sink_of(alloc: Global, name: &str, fails: &str) -> Result<MemSink, Fail> {
    Ok(MemSink::new(alloc, 1_000, 64, vec![in alloc; failing(fails, name)]?)?)
}

// What a call with these files comes to.
fn play<R: Threads + Wait + Sync>(
    rt: &R,
    alloc: Global,
    command: &str,
    case: &str,
) -> Result<Played, Fail> {
    let mut rest = case;
    let words = format!(in alloc; "{command} {}", part(&mut rest))?;
    let (one, two) = (part(&mut rest), part(&mut rest));
    let first = file_of(alloc, "f1", one, rest)?;
    let second = file_of(alloc, "f2", two, rest)?;
    let openings = vec![in alloc; failing(rest, "open")]?;
    let mut shelf = MemShelf::new(vec![in alloc; first, second]?, openings);
    let mut out = sink_of(alloc, "out", rest)?;
    let mut err = sink_of(alloc, "err", rest)?;
    let mut maker = RegexMaker::new(Vec::new(alloc));
    let words = words_of(alloc, words.as_str())?;
    let key = HashKey::of(7);
    let outcome = envoy_stats_with(
        rt, alloc, key, &words, &mut maker, &mut shelf, &mut out, &mut err,
    );
    Ok(Played {
        outcome,
        out,
        err,
        shelf,
    })
}

fn assert_row<R: Threads + Wait + Sync + Abort>(
    rt: &R,
    alloc: Global,
    command: &str,
    row: &str,
) -> Result<(), Fail> {
    let (case, comes) = row.split_once('\n').unwrap_or(("", ""));
    let played = play(rt, alloc, command, case)?;
    let mut rest = comes;
    let status = digit_of(part(&mut rest));
    let out = spelled_out(alloc, part(&mut rest))?;
    let err = spelled_out(alloc, rest)?;
    let wanted = Wanted {
        status: status.to_le_bytes()[0],
        reports: !rest.starts_with("boot"),
        out: &out,
        err: if rest == "?" {
            played.err.bytes()
        } else {
            &err
        },
    };
    assert!(rt; played.came_to(wanted), "{row}");
    // The bootstrap's source counts its one failed pull; an opening is counted by the shelf.
    let boot_fails = case.starts_with("f1 f2") && !case.contains("open");
    assert_eq!(rt; played.outcome.boot_faults, u64::from(boot_fails), "{row}");
    Ok(())
}

#[test]
fn failing_parts(rt: HostRuntime) -> Result<(), Fail> {
    for row in ROWS.split("\n\n") {
        assert_row(&rt, rt.alloc(), "run", row)?;
        assert_row(&rt, rt.alloc(), "replay", row)?;
    }
    Ok(())
}

#[test]
fn a_sink_that_is_full(rt: HostRuntime) -> Result<(), Fail> {
    let mut sink = MemSink::new(rt.alloc(), 53, 1, Vec::new(rt.alloc()))?;
    for _ in 0..53u32 {
        assert!(rt; sink.push(b"xy") == Push::Took(1));
    }
    assert!(rt; sink.fault_count() == 0);
    assert!(rt; sink.push(b"xy") == Push::Failed);
    assert!(rt; sink.fault_count() == 1 && sink.bytes().len() == 53);
    Ok(())
}
