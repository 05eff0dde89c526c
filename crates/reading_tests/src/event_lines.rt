//! Files with their events and their ends.

use event_script::{Lines, MAX_PULL_BYTES, Step, write_event};
use stat_defs::NoMemory;
use stats_io::MemSource;
use std::alloc::Global;
use std::process::Abort;

// A reader of these bytes, which come in pieces of that length; the pulls of these numbers fail.
fn lines_of(
    alloc: Global,
    file: &[u8],
    piece: usize,
    fails: Vec<u64>,
) -> Result<Lines<MemSource>, NoMemory> {
    let source = MemSource::new(String::new(alloc), file.to_vec(alloc)?, piece.max(1), fails);
    Lines::new(alloc, source)
}

// The word of an end, and the line that it speaks of.
fn end_of(step: &Step) -> (&'static str, u64) {
    match step {
        Step::Event(_) => ("", 0),
        Step::End => ("end", 0),
        Step::TooBig => ("too big", 0),
        Step::TooMany => ("too many", 0),
        Step::ReadFault => ("read fault", 0),
        Step::BadLine(number) => ("bad ", *number),
        Step::LineTooLong(number) => ("long ", *number),
    }
}

fn tell_end(alloc: Global, told: &mut Vec<u8>, step: &Step) -> Result<(), NoMemory> {
    let (word, number) = end_of(step);
    told.extend_from_slice(word.as_bytes())?;
    if number > 0 {
        told.extend_from_slice(number.to_string(alloc)?.as_bytes())?;
    }
    Ok(())
}

// Adds an answer: an event's line with `|` in place of its newline, or the end.
fn tell(alloc: Global, told: &mut Vec<u8>, step: &Step) -> Result<(), NoMemory> {
    if let Step::Event(event) = step {
        write_event(alloc, event, told)?;
        told.pop();
        told.push(b'|')?;
        return Ok(());
    }
    tell_end(alloc, told, step)
}

// The next answer, whose event the reader lends or gives.
fn answer_by(alloc: Global, lines: &mut Lines<MemSource>, lent: bool) -> Result<Step, NoMemory> {
    if lent {
        return lines.next_ref(alloc)?.to_step(alloc);
    }
    lines.next(alloc)
}

// All answers up to the end, as one text.
fn told_by(alloc: Global, lines: &mut Lines<MemSource>, lent: bool) -> Result<Vec<u8>, NoMemory> {
    let mut told = Vec::new(alloc);
    for _ in 0..100 {
        let step = answer_by(alloc, lines, lent)?;
        tell(alloc, &mut told, &step)?;
        if !matches!(&step, Step::Event(_)) {
            return Ok(told);
        }
    }
    Ok(told)
}

// What stands before the first byte 1, and behind it.
fn parts_of(row: &[u8]) -> (&[u8], &[u8]) {
    match row.iter().position(|b| *b == 1) {
        Some(at) => (&row[..at], &row[at + 1..]),
        None => (row, b"no answers"),
    }
}

// So many of that byte.
fn bytes_of(alloc: Global, byte: u8, count: usize) -> Result<Vec<u8>, NoMemory> {
    Ok(vec![in alloc; byte; count]?)
}

// The same behind a text.
fn put_bytes(alloc: Global, text: &mut Vec<u8>, byte: u8, count: usize) -> Result<(), NoMemory> {
    let bytes = bytes_of(alloc, byte, count)?;
    Ok(text.extend_from_slice(&bytes)?)
}

// A line with a label and a name of these lengths.
fn line_of_lengths(alloc: Global, label: usize, name: usize) -> Result<Vec<u8>, NoMemory> {
    let mut line = b"inc ".to_vec(alloc)?;
    put_bytes(alloc, &mut line, b'x', label)?;
    line.push(b' ')?;
    put_bytes(alloc, &mut line, b'y', name)?;
    line.extend_from_slice(b" 1\n")?;
    Ok(line)
}

// Files and what they hold: rows parted by the byte 2, in each the file, the byte 1 and the answers, where each event
// stands as the line that is written for it.
const FILES: &[u8] = b"\
inc root a 3\ninc root a 4\n\x01inc root a 3|inc root a 4|end\x02\
\x01end\x02\
\n\n\x01end\x02\
inc root a 1\ninc root a 01\ninc root a 1\n\x01inc root a 1|bad 2\x02\
inc root a 1\x01inc root a 1|end\x02\
inc root a 1\ninc\x01inc root a 1|bad 2\x02\
inc root a 1\n\nbogus\ninc root b 1\n\x01inc root a 1|bad 3\x02\
# x\n\n#\ninc root a 0\n#inc root a 1\x01inc root a 0|end\x02\
#\x00\xff\r\ninc root a 1\n\x01inc root a 1|end\x02\
\x20# x\n\x01bad 1\x02\
\r\n\x01bad 1\x02\
inc root a 1\r\n\x01bad 1\x02\
inc root.b a 1\n\x01bad 1\x02\
inc A_z09 !~#. 7\n\x01inc A_z09 !~#. 7|end\x02\
inc root a\x7f 1\n\x01bad 1\x02\
inc root \x1f 1\n\x01bad 1\x02\
inc  root a 1\n\x01bad 1\x02\
inc root  a 1\n\x01bad 1\x02\
inc root a  1\n\x01bad 1\x02\
inc root a 1 \n\x01bad 1\x02\
\x20inc root a 1\n\x01bad 1\x02\
inc root a \n\x01bad 1\x02\
inc root a\n\x01bad 1\x02\
inc\n\x01bad 1\x02\
INC root a 1\n\x01bad 1\x02\
incr root a 1\n\x01bad 1\x02\
inc root a +1\n\x01bad 1\x02\
inc root a 1:\n\x01bad 1\x02\
inc root a 00\n\x01bad 1\x02\
inc root a 4294967295\n\x01inc root a 4294967295|end\x02\
inc root a 4294967296\n\x01bad 1\x02\
inc root a 1 2\n\x01bad 1\x02\
inc a b 1\nadd root g acc 5\nsub root g never 6\nset root g uninit 0\nrec root h 9\ntext root v a  b\nopen l a.b.\nrelease l\n\
\x01inc a b 1|add root g acc 5|sub root g never 6|set root g uninit 0|rec root h 9|text root v a  b|open l a.b|release l|end\x02\
sub root g acc 9223372036854775807\n\x01sub root g acc 9223372036854775807|end\x02\
sub root g acc 9223372036854775808\n\x01bad 1\x02\
add root g 5\n\x01bad 1\x02\
add root g acc\n\x01bad 1\x02\
add root g accumulate 5\n\x01bad 1\x02\
add root g acc 5 \n\x01bad 1\x02\
add root g  acc 5\n\x01bad 1\x02\
rec root h 18446744073709551615\n\x01rec root h 18446744073709551615|end\x02\
rec root h 18446744073709551616\n\x01bad 1\x02\
rec root h 100000000000000000000\n\x01bad 1\x02\
rec root h\n\x01bad 1\x02\
text l n \n\x01text l n |end\x02\
text l n\n\x01bad 1\x02\
text l n  a b \n\x01text l n  a b |end\x02\
text root v 1.30 beta\x01text root v 1.30 beta|end\x02\
text l n a\tb\n\x01bad 1\x02\
text l n a\x7f\n\x01bad 1\x02\
open l a.b\n\x01open l a.b|end\x02\
open l a.b.\n\x01open l a.b|end\x02\
open l a..\n\x01open l a..|end\x02\
open l a...\n\x01open l a...|end\x02\
open l -\nopen l -.\nopen l .\n\x01open l -|open l -|open l -|end\x02\
open l -..\n\x01open l -..|end\x02\
open l \n\x01bad 1\x02\
open l\n\x01bad 1\x02\
open l a b\n\x01bad 1\x02\
release r\nrelease root\x01release r|release root|end\x02\
release\n\x01bad 1\x02\
release \n\x01bad 1\x02\
release a b\n\x01bad 1\x02\
release a.b\n\x01bad 1";

#[test]
fn files(rt: HostRuntime) -> Result<(), NoMemory> {
    let alloc = rt.alloc();
    let mut rows = 0u64;
    for row in FILES.split(|b| *b == 2) {
        let (file, want) = parts_of(row);
        for (piece, lent) in [(1, true), (7, false), (100_000, true)] {
            let mut lines = lines_of(alloc, file, piece, Vec::new(alloc))?;
            let told = told_by(alloc, &mut lines, lent)?;
            assert!(rt; told.as_slice() == want, "row {rows} by {piece}");
            let again = told_by(alloc, &mut lines, !lent)?;
            assert!(rt; want.ends_with(&again), "row {rows} by {piece}, again");
        }
        rows = rows.saturating_add(1);
    }
    assert_eq!(rt; rows, 64);
    Ok(())
}

// One line of each kind, and those whose texts are the hardest to write.
const KINDS: &[u8] = b"\
inc root a 0\nadd root g uninit 18\nsub root g acc 9223372036854775807\nset root g never 0\nrec root h 18446744073709551615\n\
text root v \ntext root v  a b \nopen l -\nopen l a.b\nopen l a.b..\nopen l -..\nrelease l\n";

// All answers to these bytes.
fn told_of(alloc: Global, file: &[u8]) -> Result<Vec<u8>, NoMemory> {
    let mut lines = lines_of(alloc, file, 7, Vec::new(alloc))?;
    told_by(alloc, &mut lines, false)
}

// The lines that stand in answers.
fn lines_in(alloc: Global, told: &[u8]) -> Result<Vec<u8>, NoMemory> {
    let mut lines = Vec::new(alloc);
    for line in told.split(|b| *b == b'|') {
        if line != b"end".as_slice() {
            lines.extend_from_slice(line)?;
            lines.push(b'\n')?;
        }
    }
    Ok(lines)
}

// What was written is the line that was read, and is read as the same event.
#[test]
fn written_and_read_again(rt: HostRuntime) -> Result<(), NoMemory> {
    let alloc = rt.alloc();
    let told = told_of(alloc, KINDS)?;
    let lines = lines_in(alloc, &told)?;
    assert!(rt; lines.as_slice() == KINDS);
    let again = told_of(alloc, &lines)?;
    assert!(rt; again == told);
    Ok(())
}

#[test]
fn lengths(rt: HostRuntime) -> Result<(), NoMemory> {
    let alloc = rt.alloc();
    for (label, name, fits) in [
        (32, 255, true),
        (33, 255, false),
        (32, 256, false),
        (0, 1, false),
        (1, 0, false),
        (1, 1, true),
    ] {
        let line = line_of_lengths(alloc, label, name)?;
        let mut lines = lines_of(alloc, &line, 65_536, Vec::new(alloc))?;
        let step = lines.next(alloc)?;
        assert_eq!(rt;
            matches!(&step, Step::Event(_)),
            fits,
            "label of {label}, name of {name}"
        );
    }
    Ok(())
}

// Asserts the answers of a file whose pull of that number fails, and how many bytes were taken.
fn assert_fault(
    rt: &impl Abort,
    alloc: Global,
    file: &[u8],
    piece: usize,
    call: u64,
    want: &[u8],
    taken: u64,
) -> Result<(), NoMemory> {
    let mut fails = Vec::new(alloc);
    fails.push(call)?;
    let mut lines = lines_of(alloc, file, piece, fails)?;
    let told = told_by(alloc, &mut lines, true)?;
    assert!(rt; told.as_slice() == want, "{file:?}");
    assert_eq!(rt; lines.taken(), taken, "{file:?}");
    let again = told_by(alloc, &mut lines, false)?;
    assert!(rt; want.ends_with(&again), "{file:?}, again");
    Ok(())
}

#[test]
fn read_faults(rt: HostRuntime) -> Result<(), NoMemory> {
    assert_fault(
        &rt,
        rt.alloc(),
        b"inc root a 1\ninc root b 2",
        16,
        1,
        b"inc root a 1|read fault",
        16,
    )?;
    assert_fault(
        &rt,
        rt.alloc(),
        b"inc root a 1\nbogus",
        65_536,
        1,
        b"inc root a 1|read fault",
        18,
    )?;
    assert_fault(
        &rt,
        rt.alloc(),
        b"inc root a 1\n",
        65_536,
        0,
        b"read fault",
        0,
    )?;
    assert_fault(&rt, rt.alloc(), b"bogus\ninc root a 1\n", 7, 1, b"bad 1", 7)
}

// That text, so many times.
fn repeated(alloc: Global, text: &[u8], count: usize) -> Result<Vec<u8>, NoMemory> {
    let mut bytes = Vec::new(alloc);
    for _ in 0..count {
        bytes.extend_from_slice(text)?;
    }
    Ok(bytes)
}

// What a byte of a row stands for: 3 and 5 for 1,023 and 1,022 times `#`, 4 for 8,190 lines of the first, each of 1,024
// bytes with its newline, 6 for 131,072 events, and any other for itself.
fn stands_for(alloc: Global, byte: u8) -> Result<Vec<u8>, NoMemory> {
    match byte {
        3 => bytes_of(alloc, b'#', 1_023),
        4 => {
            let mut comment = bytes_of(alloc, b'#', 1_023)?;
            comment.push(b'\n')?;
            repeated(alloc, &comment, 8_190)
        }
        5 => bytes_of(alloc, b'#', 1_022),
        6 => repeated(alloc, b"inc r a 1\n", 131_072),
        other => bytes_of(alloc, other, 1),
    }
}

fn spelled_out(alloc: Global, row: &[u8]) -> Result<Vec<u8>, NoMemory> {
    let mut file = Vec::new(alloc);
    for b in row {
        file.extend_from_slice(&stands_for(alloc, *b)?)?;
    }
    Ok(file)
}

// More answers than any file of these has.
const MANY: u32 = 200_000;

// How many events came, and the end, which is among so many answers.
fn count_by(
    alloc: Global,
    lines: &mut Lines<MemSource>,
    lent: bool,
    most: u32,
) -> Result<Vec<u8>, NoMemory> {
    let mut count = 0u64;
    for _ in 0..most {
        let step = answer_by(alloc, lines, lent)?;
        if !matches!(&step, Step::Event(_)) {
            return counted(alloc, count, &step);
        }
        count = count.saturating_add(1);
    }
    Ok(Vec::new(alloc))
}

fn counted(alloc: Global, count: u64, step: &Step) -> Result<Vec<u8>, NoMemory> {
    let mut told = Vec::new(alloc);
    told.extend_from_slice(count.to_string(alloc)?.as_bytes())?;
    told.push(b' ')?;
    tell_end(alloc, &mut told, step)?;
    Ok(told)
}

// Asserts the number of events and the end of a row's file, and what they are where the source fails behind its bytes.
fn assert_limits(
    rt: &impl Abort,
    alloc: Global,
    row: &[u8],
    piece: usize,
    number: u64,
) -> Result<(), NoMemory> {
    let (short, wants) = parts_of(row);
    let (want, want_at_fault) = parts_of(wants);
    let file = spelled_out(alloc, short)?;
    let mut lines = lines_of(alloc, &file, piece, Vec::new(alloc))?;
    let told = count_by(alloc, &mut lines, false, MANY)?;
    assert!(rt; told.as_slice() == want, "row {number} by {piece}");
    let again = told_by(alloc, &mut lines, true)?;
    assert!(rt; want.ends_with(&again), "row {number} by {piece}, again");
    let mut fails = Vec::new(alloc);
    let pulled = piece.clamp(1, MAX_PULL_BYTES);
    fails.push(file.len().div_ceil(pulled) as u64)?;
    let mut lines = lines_of(alloc, &file, piece, fails)?;
    let told = count_by(alloc, &mut lines, true, MANY)?;
    assert!(rt;
        told.as_slice() == want_at_fault,
        "row {number} by {piece}, at a fault"
    );
    Ok(())
}

// Rows parted by the byte 2: the file, how many events it gives and its end, and the same where the source fails behind
// its bytes.
const LONG_LINES: &[u8] = b"\
\x03#\n\x010 end\x010 read fault\x02\
\x03##\n\x010 long 1\x010 long 1\x02\
\x03#\x010 end\x010 read fault\x02\
\x03##\x010 long 1\x010 long 1\x02\
x\x03\n\x010 bad 1\x010 bad 1\x02\
x\x03#\n\x010 long 1\x010 long 1\x02\
x\x03\x010 bad 1\x010 read fault\x02\
x\x03#\x010 long 1\x010 long 1\x02\
inc root a 1\n\x03#\ninc root a 2\n\x012 end\x012 read fault\x02\
inc root a 1\n\x03##\x011 long 2\x011 long 2\x02\
inc root a 1\nx\x03\x011 bad 2\x011 read fault\x02\
inc root a 1\n\n\x03\x03\ninc root a 2\n\x011 long 3\x011 long 3\x02\
inc root a\x03 1\n\x010 long 1\x010 long 1\x02\
bogus\n\x03##\n\x010 bad 1\x010 bad 1\x02\
\x03##\nbogus\n\x010 long 1\x010 long 1";

#[test]
fn long_lines(rt: HostRuntime) -> Result<(), NoMemory> {
    let mut rows = 0u64;
    for row in LONG_LINES.split(|b| *b == 2) {
        for piece in [1, 2, 5, 65_536] {
            assert_limits(&rt, rt.alloc(), row, piece, rows)?;
        }
        rows = rows.saturating_add(1);
    }
    assert_eq!(rt; rows, 15);
    Ok(())
}

// The same of files at the limits of bytes and of events.
const GREAT_FILES: &[u8] = b"\
\x04\x03\n\x03\n\x010 end\x010 read fault\x02\
\x04\x03\n\x03\n\n\x010 too big\x010 too big\x02\
\x04\x03\n\x03#\x010 end\x010 read fault\x02\
\x04\x03\n\x03##\x010 too big\x010 too big\x02\
\x04\x05\n\x03##\x010 long 8192\x010 long 8192\x02\
\x04\x05\n\x03###\x010 long 8192\x010 long 8192\x02\
\x04\x03\nx\x03\x010 bad 8192\x010 read fault\x02\
\x04\x03\nx\x03\n\x010 too big\x010 too big\x02\
\x04\x05\nx\x03\n\x010 bad 8192\x010 bad 8192\x02\
\x04\x05\nx\x03\n#\x010 bad 8192\x010 bad 8192\x02\
\x06\x01131072 end\x01131072 read fault\x02\
\x06# x\n\n\x01131072 end\x01131072 read fault\x02\
\x06inc r a 1\n\x01131072 too many\x01131072 too many\x02\
\x06inc r a 1\x01131072 too many\x01131072 read fault\x02\
\x06# x\ninc r a 1\nbogus\n\x01131072 too many\x01131072 too many\x02\
\x06inc r a 1\n\x03##\x01131072 too many\x01131072 too many\x02\
\x06bogus\n\x01131072 bad 131073\x01131072 bad 131073\x02\
\x06bogus\x01131072 bad 131073\x01131072 read fault\x02\
\x06\x03##\x01131072 long 131073\x01131072 long 131073";

#[test]
fn great_files(rt: HostRuntime) -> Result<(), NoMemory> {
    let mut rows = 0u64;
    for row in GREAT_FILES.split(|b| *b == 2) {
        assert_limits(&rt, rt.alloc(), row, 65_536, rows)?;
        rows = rows.saturating_add(1);
    }
    assert_eq!(rt; rows, 19);
    Ok(())
}

// Events come whatever the pieces are, and before their file was read to its end: of 7,000 lines of 14 bytes, the first
// event comes with at most 4,095 bytes behind its line.
#[test]
fn any_pieces(rt: HostRuntime) -> Result<(), NoMemory> {
    let alloc = rt.alloc();
    let file = repeated(alloc, b"inc root ab 1\n", 7_000)?;
    for piece in [1, 7, 100_000] {
        let mut lines = lines_of(alloc, &file, piece, Vec::new(alloc))?;
        lines.next_ref(alloc)?;
        assert!(rt;
            lines.taken() <= 4_109,
            "{} bytes by {piece}",
            lines.taken()
        );
        let told = count_by(alloc, &mut lines, true, MANY)?;
        assert!(rt; told.as_slice() == b"6999 end".as_slice(), "by {piece}");
        assert_eq!(rt; lines.taken(), 98_000);
    }
    Ok(())
}

#[test]
fn fault_in_last_line(rt: HostRuntime) -> Result<(), NoMemory> {
    let file = b"inc root a 1\ninc root b 2";
    assert_fault(&rt, rt.alloc(), file, 64, 1, b"inc root a 1|read fault", 25)
}

// Sixteen lines of all kinds. Behind four comments of 1,001 bytes they stand across byte 4,096 of a file.
const SIXTEEN: &[u8] = b"\
inc root a 1\n\n# x\nadd root g acc 5\nsub root g acc 6\nset root g uninit 0\nrec root h 9\ntext root v a b\n\
text root v \nopen l a.b\nopen l -\n#\nopen m -..\ninc l a 4294967295\nrelease l\nadd root g never 1\n";

fn twenty_lines(alloc: Global) -> Result<Vec<u8>, NoMemory> {
    let mut comment = bytes_of(alloc, b'#', 1_000)?;
    comment.push(b'\n')?;
    let mut file = repeated(alloc, &comment, 4)?;
    file.extend_from_slice(SIXTEEN)?;
    Ok(file)
}

// Asserts the same answers to a file by pieces of all lengths, and that all its bytes were taken.
fn assert_alike(rt: &impl Abort, alloc: Global, file: &[u8]) -> Result<(), NoMemory> {
    let mut lines = lines_of(alloc, file, 1, Vec::new(alloc))?;
    let want = told_by(alloc, &mut lines, false)?;
    for piece in [2, 7, 4_095, 4_096, 4_097] {
        let mut lines = lines_of(alloc, file, piece, Vec::new(alloc))?;
        let told = told_by(alloc, &mut lines, true)?;
        assert!(rt; told == want, "{} bytes by {piece}", file.len());
        assert_eq!(rt; lines.taken(), file.len() as u64, "by {piece}");
    }
    Ok(())
}

#[test]
fn cut_anywhere(rt: HostRuntime) -> Result<(), NoMemory> {
    let alloc = rt.alloc();
    let file = twenty_lines(alloc)?;
    for count in 4_004..=file.len() {
        assert_alike(&rt, alloc, &file[..count])?;
    }
    let told = told_of(alloc, &file)?;
    assert_eq!(rt; told.split(|b| *b == b'|').count(), 14);
    Ok(())
}
