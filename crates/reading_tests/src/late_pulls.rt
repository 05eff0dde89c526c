//! How far a source is read: not on once the answer is known. A body that reads on behind the end, behind a limit or
//! behind a failure before it drops the source has the same contract.
ghost use Rattle.std.specs.Prelude.{◌≤◌, IfOk, length};
ghost use Rattle.stat_defs.specs.Configs.{IsConfig};
ghost use Rattle.file_reading.specs.declared.limits.TheConstants as limits;

use crate::metered::{Meter, MeteredShelf};
use boot_file::usual;
use boot_load::{LoadFault, boot_line, load};
use name_map::HashKey;
use replay_files::replay_files;
use stat_defs::{Config, FileEnd, Report, Reported};
use stats_io::{MemFile, MemShelf};
use std::alloc::Global;
use std::process::Abort;
use std::test::Fail;
use tag_rules::{Matcher, RegexMaker, TagRules, config_law};

const BOOT: &[u8] = br#"{"stats_config":{"use_all_default_tags":false}}"#;

// A shelf whose file `f` has this text and then that byte up to that length, given 4,096 bytes a pull. The pull with
// that number, from 0, fails.
fn shelf_of(
    alloc: Global,
    text: &[u8],
    byte: u8,
    length: usize,
    failing_pull: u64,
) -> Result<MemShelf, Fail> {
    let mut bytes = text.to_vec(alloc)?;
    bytes.resize(length, byte)?;
    let file = MemFile {
        name: String::from_str(alloc, "f")?,
        bytes,
        piece: 4_096,
        fails: vec![in alloc; failing_pull]?,
    };
    Ok(MemShelf::new(vec![in alloc; file]?, Vec::new(alloc)))
}

// The fault of the bootstrap `f`, if it has one.
fn fault_of(alloc: Global, shelf: MemShelf, meter: &Meter) -> Option<LoadFault> {
    let mut shelf = MeteredShelf { shelf, meter };
    let mut maker = RegexMaker::new(Vec::new(alloc));
    load(alloc, "f", &mut maker, &mut shelf).err()
}

// The line on the bootstrap `f`; none where it has no fault.
fn said(alloc: Global, shelf: MemShelf, meter: &Meter) -> Result<Vec<u8>, Fail> {
    match fault_of(alloc, shelf, meter) {
        Some(fault) => Ok(boot_line(alloc, &fault)?),
        None => Ok(Vec::new(alloc)),
    }
}

#[test]
fn a_bootstrap_is_not_read_on(rt: HostRuntime) -> Result<(), Fail> {
    let alloc = rt.alloc();
    for (length, failing_pull, taken, line) in [
        (47, 999, 47, ""),
        (1_048_576, 999, 1_048_576, ""),
        (2_000_000, 999, 1_052_672, "boot: too big\n"),
        (10_000, 0, 0, "boot: read failed\n"),
        (10_000, 2, 8_192, "boot: read failed\n"),
    ] {
        let meter = Meter::new();
        let shelf = shelf_of(alloc, BOOT, b' ', length, failing_pull)?;
        let told = said(alloc, shelf, &meter)?;
        assert!(rt; told.as_slice() == line.as_bytes(), "{length}");
        assert_eq!(rt; meter.taken(), taken, "{length}");
        assert_eq!(rt; meter.late(), 0, "{length}");
    }
    Ok(())
}

#[test]
fn the_count_of_a_source_that_failed(rt: HostRuntime) -> Result<(), Fail> {
    let alloc = rt.alloc();
    for failing_pull in [0, 2] {
        let shelf = shelf_of(alloc, BOOT, b' ', 10_000, failing_pull)?;
        let fault = fault_of(alloc, shelf, &Meter::new());
        assert!(rt; matches!(&fault, Some(LoadFault::ReadFailed(1))));
    }
    let shelf = MemShelf::new(Vec::new(alloc), Vec::new(alloc));
    let fault = fault_of(alloc, shelf, &Meter::new());
    assert!(rt; matches!(&fault, Some(LoadFault::OpenFailed)));
    Ok(())
}

// The name `f`.
fn one_name(alloc: Global) -> Result<Vec<String>, Fail>
    ensures { IfOk result (λ names. length names.items ≤ limits.MAX_FILES) }
{
    let name = String::from_str(alloc, "f")?;
    Ok(vec![in alloc; name]?)
}

// The report of the file `f`.
fn replayed(alloc: Global, config: &Config, shelf: MemShelf, meter: &Meter) -> Result<Report, Fail>
    requires { IsConfig config.now }
{
    config_law();
    let mut shelf = MeteredShelf { shelf, meter };
    let names = one_name(alloc)?;
    let mut maker = RegexMaker::new(Vec::new(alloc));
    let rules = TagRules::build(alloc, &mut maker, config.tags.items())?;
    let matcher = Matcher::build(alloc, &mut maker, &config.matcher)?;
    let key = HashKey::fixed();
    let Reported { report, names: _ } = replay_files(
        alloc, key, config, rules, matcher, &names, &mut shelf,
    )?;
    Ok(report)
}

// How the file `f` ended.
fn end_of(alloc: Global, shelf: MemShelf, meter: &Meter) -> Result<FileEnd, Fail> {
    let config = usual(alloc)?;
    let report = replayed(alloc, &config, shelf, meter);
    drop(config);
    let report = report?;
    let end = report.ends.items().first().ok_or("no file")?.end;
    Ok(end)
}

#[test]
fn an_event_file_is_not_read_on(rt: HostRuntime) -> Result<(), Fail> {
    let alloc = rt.alloc();
    for (text, length, failing_pull, taken, end) in [
        ("inc root a 1\n", 13, 999, 13, FileEnd::Whole),
        ("inc root a 1\n", 10_000, 999, 10_000, FileEnd::Whole),
        ("inc root a 1\nx\n", 10_000, 999, 4_096, FileEnd::BadLine(2)),
        ("inc root a 1\n", 10_000, 1, 4_096, FileEnd::ReadFault),
    ] {
        let meter = Meter::new();
        let shelf = shelf_of(alloc, text.as_bytes(), b'\n', length, failing_pull)?;
        assert_eq!(rt; end_of(alloc, shelf, &meter)?, end);
        assert_eq!(rt; meter.taken(), taken, "{length}");
        assert_eq!(rt; meter.late(), 0, "{length}");
    }
    Ok(())
}
