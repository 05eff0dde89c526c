//! Readers, writers and the files of the system, the trusted edge. They count their failures, and tell the bytes that
//! std tells of a reader or a writer: of files and streams of the system, none.
ghost use Rattle.std.specs.Prelude.{◌≡◌, ◌≤◌, None, [], IfOk, length};
ghost use Rattle.std.specs.Io.KnownBytes.{ReadConsumes, WriteAppends};

use crate::shelf::{OpenFault, Shelf};
use crate::sink::{Push, Sink};
use crate::source::{Pull, Source};
use std::alloc::Global;
use std::io::{BufReader, Read, Write};
use std::marker::{Model, Send};
use std::rt::Files;
use std::{fs, io};

/// An open file, or another reader. A read that fails takes nothing and is counted.
#[derive(Drop)]
pub struct FileSource<F> {
    inner: F,
    name: String,
    faults: u64,
}

impl<F> Model for FileSource<F> {
    ghost use Rattle.std.specs.Prelude.{string_bytes};
    ghost use Rattle.stats_io.specs.Adapters.{FileSourceState};

    ghost Value = { FileSourceState F };

    ghost view = { λ s. record { reader = s.inner; name = string_bytes s.name; faults = s.faults } };
}

impl<F> FileSource<F> {
    ghost use Rattle.std.specs.Prelude.{◌≡◌, string_bytes};

    /// A reader under that name, whose reads have not failed yet.
    pub fn new(inner: F, name: String) -> FileSource<F>
        ensures { result ≡ record { reader = inner; name = string_bytes name; faults = 0 } }
    {
        FileSource {
            inner,
            name,
            faults: 0,
        }
    }
}

// Reads once. A read that a signal interrupts is made again, as the loops of std do.
fn read_once<F: Read>(reader: &mut F, into: &mut [u8]) -> io::Result<usize>
    ensures room { length into.new ≡ length into.old }
    ensures fits { IfOk result (λ n. n ≤ length into.old) }
    ensures bytes { ReadConsumes (F.remaining reader.old) (F.remaining reader.new) result into.new }
{
    for _ in 0..u64::MAX {
        match reader.read(into) {
            Err(fault) if fault.kind() == io::ErrorKind::Interrupted => {}
            told => return told,
        }
    }
    Err(io::Error::from(io::ErrorKind::Interrupted))
}

impl<F: Read> Source for FileSource<F> {
    ghost state = { λ s. record { left = F.remaining s.reader; origin = s.name; faults = s.faults } };

    fn pull(&mut self, into: &mut [u8]) -> Pull {
        match read_once(&mut self.inner, into) {
            Ok(0) => Pull::End,
            Ok(count) => Pull::Bytes(count),
            Err(_) => {
                self.faults = self.faults.saturating_add(1);
                Pull::Failed
            }
        }
    }

    fn fault_count(&self) -> u64 {
        self.faults
    }
}

// Number of bytes that are read ahead in a file: a file is pulled in small pieces, and not each of them is a call of the
// system.
const READ_AHEAD: usize = 32_768;

/// The files of the folder where the program runs.
#[derive(Drop)]
pub struct FolderShelf<'a, R> {
    rt: &'a R,
    faults: u64,
    failed: Option<String>,
}

impl<'a, R> Model for FolderShelf<'a, R> {
    ghost use Rattle.stats_io.specs.States.{ShelfState};
    ghost use Rattle.stats_io.specs.Adapters.{last_name};

    ghost Value = { ShelfState };

    ghost view = { λ s. record { faults = s.faults; failed = last_name s.failed } };
}

impl<'a, R: Files> FolderShelf<'a, R> {
    ghost use Rattle.std.specs.Prelude.{◌≡◌};

    /// The folder, on which no opening has failed yet.
    pub fn new(rt: &'a R) -> FolderShelf<'a, R>
        ensures { result ≡ record { faults = 0; failed = [] } }
    {
        FolderShelf {
            rt,
            faults: 0,
            failed: None,
        }
    }
}

impl<'a, R: Files> Shelf for FolderShelf<'a, R>
where
    R::File: Send,
{
    type S = FileSource<BufReader<R::File>>;

    ghost holds = { λ s name. None };

    ghost state = { λ s. s };

    fn open(
        &mut self,
        alloc: Global,
        name: &str,
    ) -> Result<FileSource<BufReader<R::File>>, OpenFault> {
        let copy = String::from_str(alloc, name)?;
        match fs::open(self.rt, name) {
            Ok(file) => match BufReader::with_capacity(alloc, READ_AHEAD, file) {
                Ok(inner) => Ok(FileSource::new(inner, copy)),
                Err(_) => Err(OpenFault::NoMemory),
            },
            Err(_) => {
                self.faults = self.faults.saturating_add(1);
                self.failed = Some(copy);
                Err(OpenFault::Failed)
            }
        }
    }

    fn fault_count(&self) -> u64 {
        self.faults
    }
}

/// A standard stream, or another writer. A write that fails is counted, and so is one that takes no bytes.
#[derive(Drop)]
pub struct StdSink<W> {
    inner: W,
    faults: u64,
}

impl<W> Model for StdSink<W> {
    ghost use Rattle.stats_io.specs.Adapters.{StdSinkState};

    ghost Value = { StdSinkState W };

    ghost view = { λ s. record { writer = s.inner; faults = s.faults } };
}

impl<W> StdSink<W> {
    ghost use Rattle.std.specs.Prelude.{◌≡◌};

    /// A sink whose writes have not failed yet.
    pub fn new(inner: W) -> StdSink<W>
        ensures { result ≡ record { writer = inner; faults = 0 } }
    {
        StdSink { inner, faults: 0 }
    }
}

// Writes once. A write that a signal interrupts is made again, as the loops of std do.
fn write_once<W: Write>(writer: &mut W, piece: &[u8]) -> io::Result<usize>
    ensures fits { IfOk result (λ n. n ≤ length piece.now) }
    ensures bytes { WriteAppends (W.contents writer.old) (W.contents writer.new) result piece.now }
{
    for _ in 0..u64::MAX {
        match writer.write(piece) {
            Err(fault) if fault.kind() == io::ErrorKind::Interrupted => {}
            told => return told,
        }
    }
    Err(io::Error::from(io::ErrorKind::Interrupted))
}

impl<W: Write> Sink for StdSink<W> {
    ghost state = { λ s. record { written = W.contents s.writer; faults = s.faults } };

    fn push(&mut self, piece: &[u8]) -> Push {
        match write_once(&mut self.inner, piece) {
            Ok(0) | Err(_) => {
                self.faults = self.faults.saturating_add(1);
                Push::Failed
            }
            Ok(count) => Push::Took(count),
        }
    }

    fn fault_count(&self) -> u64 {
        self.faults
    }
}
