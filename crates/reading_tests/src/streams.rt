ghost use Rattle.std.specs.Prelude.{None, Some};

use stats_io::{
    FileSource, FolderShelf, MemFile, MemShelf, MemSink, OpenFault, Pull, Pulled, Shelf, Sink,
    Source, StdSink, WriteFault, pull_up_to, push_all,
};
use std::alloc::Global;
use std::io::{Read, Write};
use std::test::Fail;
use std::{fs, io};

// A writer that takes one byte at a time, as a pipe may.
#[derive(Drop)]
struct NarrowWriter {
    bytes: Vec<u8>,
}

impl Write for NarrowWriter {
    ghost contents = { λ w. Some w.bytes.items };

    fn write(&mut self, buf: &[u8]) -> io::Result<usize> {
        self.bytes.write(&buf[..buf.len().min(1)])
    }

    fn flush(&mut self) -> io::Result<()> {
        Ok(())
    }
}

// A stream of which a signal interrupts every other call. It gives and takes one byte at a time.
#[derive(Drop)]
struct Interrupted {
    bytes: Vec<u8>,
    at: usize,
    is_next: bool,
}

impl Interrupted {
    fn of(bytes: Vec<u8>) -> Interrupted {
        Interrupted {
            bytes,
            at: 0,
            is_next: true,
        }
    }

    // Whether this call is interrupted.
    fn is_interrupted(&mut self) -> bool {
        let is_now = self.is_next;
        self.is_next = !is_now;
        is_now
    }
}

impl Read for Interrupted {
    ghost remaining = { λ r. None };

    fn read(&mut self, buf: &mut [u8]) -> io::Result<usize> {
        if self.is_interrupted() {
            return Err(io::Error::from(io::ErrorKind::Interrupted));
        }
        if buf.is_empty() || self.bytes.len() <= self.at {
            return Ok(0);
        }
        buf[0] = self.bytes[self.at];
        self.at += 1;
        Ok(1)
    }
}

impl Write for Interrupted {
    ghost contents = { λ w. None };

    fn write(&mut self, buf: &[u8]) -> io::Result<usize> {
        if self.is_interrupted() {
            return Err(io::Error::from(io::ErrorKind::Interrupted));
        }
        self.bytes.write(&buf[..buf.len().min(1)])
    }

    fn flush(&mut self) -> io::Result<()> {
        Ok(())
    }
}

fn shelf_of(alloc: Global, bytes: &[u8], fails: Vec<u64>) -> Result<MemShelf, Fail> {
    let file = MemFile {
        name: String::from_str(alloc, "f")?,
        bytes: bytes.to_vec(alloc)?,
        piece: 2,
        fails,
    };
    Ok(MemShelf::new(vec![in alloc; file]?, vec![in alloc; 2]?))
}

// What a source gives in so many pulls: bytes, `!` where it failed, and `.` at its end.
fn pulled<S: Source>(alloc: Global, source: &mut S, pulls: u32) -> Result<Vec<u8>, Fail> {
    let mut told = Vec::new(alloc);
    for _ in 0..pulls {
        let mut into = [0u8; 8];
        match source.pull(&mut into) {
            Pull::Bytes(count) => told.extend_from_slice(into.get(..count).unwrap_or(b"?"))?,
            Pull::Failed => told.push(b'!')?,
            Pull::End => told.push(b'.')?,
        }
    }
    Ok(told)
}

#[test]
fn memory_tells_its_bytes(rt: HostRuntime) -> Result<(), Fail> {
    let alloc = rt.alloc();
    let mut shelf = shelf_of(alloc, b"abc", vec![in alloc; 1]?)?;
    let mut source = shelf.open(alloc, "f")?;
    let told = pulled(alloc, &mut source, 5)?;
    assert_eq!(rt; told.as_slice(), b"ab!c..".as_slice());
    assert_eq!(rt; source.fault_count(), 1);
    assert_eq!(rt; shelf.open(alloc, "g").err(), Some(OpenFault::Failed));
    assert_eq!(rt; shelf.open(alloc, "f").err(), Some(OpenFault::Failed));
    assert_eq!(rt; shelf.fault_count(), 2);
    Ok(())
}

#[test]
fn memory_holds_what_is_pushed(rt: HostRuntime) -> Result<(), Fail> {
    let alloc = rt.alloc();
    let mut sink = MemSink::new(alloc, 4, 3, vec![in alloc; 1]?)?;
    assert_eq!(rt; push_all(&mut sink, b"xyzw"), Err(WriteFault));
    assert_eq!(rt; push_all(&mut sink, b"w"), Ok(()));
    assert_eq!(rt; push_all(&mut sink, b"v"), Err(WriteFault));
    assert_eq!(rt; sink.bytes(), b"xyzw".as_slice());
    assert_eq!(rt; sink.fault_count(), 2);
    Ok(())
}

#[test]
fn a_real_folder(rt: HostRuntime) -> Result<(), Fail> {
    let alloc = rt.alloc();
    fs::write(&rt, "given", b"ab".as_slice())?;
    let mut shelf = FolderShelf::new(&rt);
    let mut source = shelf.open(alloc, "given")?;
    let told = pulled(alloc, &mut source, 2)?;
    assert_eq!(rt; told.as_slice(), b"ab.".as_slice());
    assert_eq!(rt; source.fault_count(), 0);
    assert_eq!(rt; shelf.open(alloc, "missing").err(), Some(OpenFault::Failed));
    assert_eq!(rt; shelf.fault_count(), 1);
    Ok(())
}

#[test]
fn a_folder_as_a_file(rt: HostRuntime) -> Result<(), Fail> {
    let mut shelf = FolderShelf::new(&rt);
    let mut folder = shelf.open(rt.alloc(), ".")?;
    let told = pulled(rt.alloc(), &mut folder, 1)?;
    assert_eq!(rt; told.as_slice(), b"!".as_slice());
    assert_eq!(rt; folder.fault_count(), 1);
    Ok(())
}

#[test]
fn a_real_stream(rt: HostRuntime) -> Result<(), Fail> {
    let alloc = rt.alloc();
    let mut sink = StdSink::new(fs::create(&rt, "written")?);
    assert_eq!(rt; push_all(&mut sink, b"abc"), Ok(()));
    assert_eq!(rt; sink.fault_count(), 0);
    let written = fs::read(&rt, "written")?;
    assert_eq!(rt; written.as_slice(), b"abc".as_slice());

    let mut full = StdSink::new(fs::create(&rt, "/dev/full")?);
    assert_eq!(rt; push_all(&mut full, b"abc"), Err(WriteFault));
    assert_eq!(rt; full.fault_count(), 1);
    Ok(())
}

#[test]
fn a_writer_that_takes_one_byte_at_a_time(rt: HostRuntime) -> Result<(), Fail> {
    let mut writer = NarrowWriter {
        bytes: Vec::new(rt.alloc()),
    };
    let mut sink = StdSink::new(&mut writer);
    assert_eq!(rt; push_all(&mut sink, b"abc"), Ok(()));
    assert_eq!(rt; sink.fault_count(), 0);
    assert_eq!(rt; writer.bytes.as_slice(), b"abc".as_slice());
    Ok(())
}

#[test]
fn a_limit(rt: HostRuntime) -> Result<(), Fail> {
    let alloc = rt.alloc();
    for (limit, wanted) in [(2, Pulled::TooMany), (3, Pulled::End)] {
        let mut shelf = shelf_of(alloc, b"abc", Vec::new(alloc))?;
        let mut source = shelf.open(alloc, "f")?;
        let mut bytes = Vec::new(alloc);
        assert_eq!(rt; pull_up_to(alloc, &mut source, limit, &mut bytes)?, wanted);
        assert_eq!(rt; bytes.as_slice(), b"abc".as_slice());
    }
    Ok(())
}

#[test]
fn an_interrupted_stream(rt: HostRuntime) -> Result<(), Fail> {
    let alloc = rt.alloc();
    let reader = Interrupted::of(b"abc".to_vec(alloc)?);
    let mut source = FileSource::new(reader, String::from_str(alloc, "f")?);
    assert_eq!(rt;
        pulled(alloc, &mut source, 5)?.as_slice(),
        b"abc..".as_slice()
    );
    assert!(rt; source.fault_count() == 0);
    let mut sink = StdSink::new(Interrupted::of(Vec::new(alloc)));
    let said = push_all(&mut sink, b"abc");
    assert!(rt; said.is_ok() && sink.fault_count() == 0);
    Ok(())
}
