//! The Prometheus and admin texts of a view of counters and of one of histograms, measured or timed.
#![tactic(auto)]

ghost use Rattle.text_parts.specs.Histograms.{HasHistograms};

mod views;

use admin_read::write_admin;
use prom_text::write_prom;
use stat_defs::{FlushView, NoMemory};
use stats_io::MemSink;
use std::alloc::Global;
use std::time::Instant;
use std::{env, io};
use text_parts::TextFault;
use views::{view_of_counters, view_of_histograms};

/// Rows of the views where texts are written once and their bytes counted.
const FEW: u32 = 100;

/// Rows of the views of which texts are timed: the most counters and histograms of one store.
const COUNTERS: u32 = 16_384;

const HISTOGRAMS: u32 = 1_024;

/// No text of these views has more bytes.
const ROOM: usize = 1 << 24;

#[derive(Clone, Copy)]
enum Format {
    Prometheus,
    Admin,
}

/// Writes the text of a view, and gives the number of its bytes.
fn write_once(alloc: Global, format: Format, view: &FlushView) -> Result<usize, TextFault>
    requires { HasHistograms view.now }
{
    let mut out = MemSink::new(alloc, ROOM, ROOM, Vec::new(alloc))?;
    match format {
        Format::Prometheus => write_prom(alloc, view, &mut out)?,
        Format::Admin => write_admin(alloc, view, &mut out)?,
    }
    Ok(out.bytes().len())
}

/// Writes the text so many times, and gives the bytes of the last one.
fn write_often(
    alloc: Global,
    format: Format,
    view: &FlushView,
    times: u32,
) -> Result<usize, TextFault>
    requires { HasHistograms view.now }
{
    let mut bytes = 0;
    for _ in 0..times {
        bytes = write_once(alloc, format, view)?;
    }
    Ok(bytes)
}

/// How often texts are written, and which one, if not all.
#[derive(Drop)]
struct Wanted {
    times: u32,
    only: Option<String>,
}

impl Wanted {
    fn has(&self, name: &str) -> bool {
        match &self.only {
            Some(word) => word.as_str() == name,
            None => true,
        }
    }
}

/// Writes a text so often as is wanted, and prints its bytes and, where it was written more than once, the time of one.
fn measure(
    rt: &HostRuntime,
    wanted: &Wanted,
    name: &str,
    format: Format,
    view: &FlushView,
) -> io::Result<()>
    requires { HasHistograms view.now }
{
    if !wanted.has(name) {
        return Ok(());
    }
    let times = wanted.times.max(1);
    let start = Instant::now(rt)?;
    let bytes = write_often(rt.alloc(), format, view, times).map_err(stopped)?;
    println!(rt; "{name}: {bytes} bytes")?;
    if times > 1 {
        let each = start.elapsed(rt)?.as_micros() / times as u128;
        println!(rt; "{name}: {each} us")?;
    }
    Ok(())
}

fn measure_counters(rt: &HostRuntime, wanted: &Wanted, rows: u32) -> io::Result<()> {
    let view = view_of_counters(rt.alloc(), rows).map_err(no_memory)?;
    measure(rt, wanted, "prom-counters", Format::Prometheus, &view)?;
    measure(rt, wanted, "admin-counters", Format::Admin, &view)
}

fn measure_histograms(rt: &HostRuntime, wanted: &Wanted, rows: u32) -> io::Result<()> {
    let view = view_of_histograms(rt.alloc(), rows).map_err(no_memory)?;
    measure(rt, wanted, "prom-histograms", Format::Prometheus, &view)?;
    measure(rt, wanted, "admin-histograms", Format::Admin, &view)
}

fn main(rt: HostRuntime) -> io::Result<()> {
    let mut words = env::args(&rt)?;
    words.next();
    let times = match words.next() {
        Some(word) => word.as_str().parse::<u32>().unwrap_or(1).max(1),
        None => 0,
    };
    let wanted = Wanted {
        times,
        only: words.next(),
    };
    let (counters, histograms) = if times == 0 {
        (FEW, FEW)
    } else {
        (COUNTERS, HISTOGRAMS)
    };
    measure_counters(&rt, &wanted, counters)?;
    measure_histograms(&rt, &wanted, histograms)
}

fn stopped(_: TextFault) -> io::Error {
    io::Error::from(io::ErrorKind::Other)
}

fn no_memory(_: NoMemory) -> io::Error {
    io::Error::from(io::ErrorKind::OutOfMemory)
}
