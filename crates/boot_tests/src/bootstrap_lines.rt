//! Bootstraps, loaded and told.
ghost use Rattle.std.specs.Prelude.{◌≤◌};

use boot_file::BootFault;
use boot_load::{LoadFault, boot_line, load};
use stats_io::{MemFile, MemShelf, Shelf};
use std::alloc::Global;
use std::test::Fail;
use tag_rules::RegexMaker;

// A shelf whose one file `f` has these bytes, in pieces of so many; its pulls of those numbers fail.
fn shelf_of(alloc: Global, bytes: Vec<u8>, piece: usize, fails: Vec<u64>) -> Result<MemShelf, Fail>
    requires { 1 ≤ piece }
{
    let file = MemFile {
        name: String::from_str(alloc, "f")?,
        bytes,
        piece,
        fails,
    };
    Ok(MemShelf::new(vec![in alloc; file]?, Vec::new(alloc)))
}

// What is said of the bootstrap of that name, and nothing where it was loaded. The maker refuses the calls of those
// numbers.
fn said(
    alloc: Global,
    name: &str,
    refused: Vec<u64>,
    shelf: &mut MemShelf,
) -> Result<Vec<u8>, Fail> {
    let mut maker = RegexMaker::new(refused);
    match load(alloc, name, &mut maker, shelf) {
        Ok(_) => Ok(Vec::new(alloc)),
        Err(fault) => Ok(boot_line(alloc, &fault)?),
    }
}

// Rows of what is said, and of the bootstrap.
fn rows() -> &'static str {
    r#"boot: not json | [
boot: bad key at top | null
boot: bad tag 0 | {"stats_config":{"stats_tags":[{"tag_name":"x","fixed_value":1}]}}
boot: bad bucket at stats_config.histogram_bucket_settings[0].buckets | {"stats_config":{"histogram_bucket_settings":[{"match":{"exact":"x"},"buckets":[]}]}}
boot: out of range at stats_run.flushes | {"stats_run":{"flushes":65}}
boot: bad pattern at stats_config.stats_tags[0].regex | {"stats_config":{"use_all_default_tags":false,"stats_tags":[{"tag_name":"x","regex":"("}]}}
boot: bad pattern at stats_config.stats_matcher.exclusion_list.patterns[1].safe_regex.regex | {"stats_config":{"use_all_default_tags":false,"stats_matcher":{"exclusion_list":{"patterns":[{"exact":"("},{"safe_regex":{"regex":"("}}]}}}}
boot: bad pattern at stats_config.stats_matcher.inclusion_list.patterns[0].safe_regex.regex | {"stats_config":{"use_all_default_tags":false,"stats_matcher":{"inclusion_list":{"patterns":[{"safe_regex":{"regex":"a)(b"}}]}}}}
boot: bad pattern at stats_config.histogram_bucket_settings[0].match.safe_regex.regex | {"stats_config":{"use_all_default_tags":false,"histogram_bucket_settings":[{"match":{"safe_regex":{"regex":"["}},"buckets":[1]}]}}"#
}

#[test]
fn lines(rt: HostRuntime) -> Result<(), Fail> {
    let alloc = rt.alloc();
    for row in rows().split('\n') {
        let (line, text) = row.split_once(" | ").unwrap_or(("", ""));
        let mut shelf = shelf_of(alloc, text.as_bytes().to_vec(alloc)?, 4096, Vec::new(alloc))?;
        let told = said(alloc, "f", Vec::new(alloc), &mut shelf)?;
        assert!(rt; told.strip_suffix(b"\n") == Some(line.as_bytes()), "{row}");
    }
    let wants = [LoadFault::NoMemory, LoadFault::Faulty(BootFault::NoMemory)];
    for fault in &wants {
        assert!(rt; boot_line(alloc, fault)?.as_slice() == b"out of memory\n".as_slice());
    }
    Ok(())
}

#[test]
fn files(rt: HostRuntime) -> Result<(), Fail> {
    let alloc = rt.alloc();
    // The second pull fails, and the name of a file that is not there.
    let mut shelf = shelf_of(alloc, b"{}".to_vec(alloc)?, 1, vec![in alloc; 1]?)?;
    for (name, faults) in [("f", 0), ("g", 1)] {
        let told = said(alloc, name, Vec::new(alloc), &mut shelf)?;
        assert!(rt;
            told.as_slice() == b"boot: read failed\n".as_slice(),
            "{name}"
        );
        assert!(rt; shelf.fault_count() == faults, "{name}");
    }
    // The usual bootstrap, of which the maker refuses the first pattern.
    let told = said(alloc, "-", vec![in alloc; 0]?, &mut shelf)?;
    assert!(rt; told.as_slice() == b"boot: bad pattern at default_tags[0]\n".as_slice());
    assert!(rt; shelf.fault_count() == 1);
    Ok(())
}

// So many opening brackets, and as many closing ones.
fn nested(alloc: Global, deep: usize) -> Result<Vec<u8>, Fail> {
    let mut text = vec![in alloc; b'['; deep]?;
    let closed = vec![in alloc; b']'; deep]?;
    text.extend_from_slice(&closed)?;
    Ok(text)
}

#[test]
fn limits(rt: HostRuntime) -> Result<(), Fail> {
    let alloc = rt.alloc();
    for (deep, line) in [(127, "boot: bad key at top\n"), (128, "boot: not json\n")] {
        let mut shelf = shelf_of(alloc, nested(alloc, deep)?, 4096, Vec::new(alloc))?;
        let told = said(alloc, "f", Vec::new(alloc), &mut shelf)?;
        assert!(rt; told.as_slice() == line.as_bytes(), "{deep}");
    }
    let start = br#"{"stats_config":{"use_all_default_tags":false}}"#;
    for (len, line) in [(1_048_576, ""), (1_048_577, "boot: too big\n")] {
        let mut text = start.to_vec(alloc)?;
        text.resize(len, b' ')?;
        let mut shelf = shelf_of(alloc, text, 65_536, Vec::new(alloc))?;
        let told = said(alloc, "f", Vec::new(alloc), &mut shelf)?;
        assert!(rt; told.as_slice() == line.as_bytes(), "{len}");
    }
    Ok(())
}
