//! Reports of files in memory under the usual configuration.
ghost use Rattle.std.specs.Prelude.{◌≤◌, IfOk, length};
ghost use Rattle.stat_defs.specs.Configs.{IsConfig};
ghost use Rattle.file_reading.specs.declared.limits.TheConstants as limits;

use boot_file::usual;
use name_map::HashKey;
use replay_files::replay_files;
use stat_defs::{Config, FileEnd, MetricId, Report, Reported, ScopeId, Verdict};
use stats_io::{MemFile, MemShelf};
use std::alloc::Global;
use std::test::Fail;
use tag_rules::{Matcher, RegexMaker, TagRules, config_law};

// A file that is given in pieces of 16 bytes.
fn file_of(alloc: Global, name: &str, bytes: &[u8]) -> Result<MemFile, Fail>
    ensures { IfOk result (λ file. 1 ≤ file.piece) }
{
    Ok(MemFile {
        name: String::from_str(alloc, name)?,
        bytes: bytes.to_vec(alloc)?,
        piece: 16,
        fails: Vec::new(alloc),
    })
}

// The names `f1` and `f2`.
fn two_names(alloc: Global) -> Result<Vec<String>, Fail>
    ensures { IfOk result (λ names. length names.items ≤ limits.MAX_FILES) }
{
    let first = String::from_str(alloc, "f1")?;
    let second = String::from_str(alloc, "f2")?;
    Ok(vec![in alloc; first, second]?)
}

// The report of the files `f1` and `f2` of a shelf.
fn replayed(alloc: Global, config: &Config, shelf: &mut MemShelf) -> Result<Report, Fail>
    requires { IsConfig config.now }
{
    config_law();
    let names = two_names(alloc)?;
    let mut maker = RegexMaker::new(Vec::new(alloc));
    let rules = TagRules::build(alloc, &mut maker, config.tags.items())?;
    let matcher = Matcher::build(alloc, &mut maker, &config.matcher)?;
    let key = HashKey::fixed();
    let Reported { report, names: _ } = replay_files(
        alloc, key, config, rules, matcher, &names, shelf,
    )?;
    Ok(report)
}

fn report_of(alloc: Global, mut shelf: MemShelf) -> Result<Report, Fail> {
    let config = usual(alloc)?;
    let report = replayed(alloc, &config, &mut shelf);
    drop(config);
    report
}

#[test]
fn a_scope_is_released_in_the_second_file(rt: HostRuntime) -> Result<(), Fail> {
    let alloc = rt.alloc();
    let first = file_of(alloc, "f1", b"open s t\ninc s u 1\n")?;
    let second = file_of(alloc, "f2", b"release s\ninc s u 1\n")?;
    let shelf = MemShelf::new(vec![in alloc; first, second]?, Vec::new(alloc));
    let report = report_of(alloc, shelf)?;
    let verdicts = report.verdicts.items();
    let flushes = report.flushes.items();
    let opened = [Verdict::Opened(ScopeId(1)), Verdict::Accepted(MetricId(0))];
    let released = [Verdict::Released(ScopeId(1)), Verdict::NoScope];
    assert!(rt; verdicts.len() == 2 && flushes.len() == 1);
    assert!(rt; verdicts[0].items() == opened.as_slice());
    assert!(rt; verdicts[1].items() == released.as_slice());
    assert!(rt; flushes[0].at == 7 && report.log.items().len() == 8);
    let deltas = flushes[0].deltas.items();
    assert!(rt; deltas.len() == 1 && deltas[0].id == MetricId(0) && deltas[0].n == 1);
    Ok(())
}

#[test]
fn a_file_that_cannot_be_opened_has_no_events(rt: HostRuntime) -> Result<(), Fail> {
    let alloc = rt.alloc();
    let second = file_of(alloc, "f2", b"inc root a 2\nbogus\n")?;
    let shelf = MemShelf::new(vec![in alloc; second]?, Vec::new(alloc));
    let report = report_of(alloc, shelf)?;
    let verdicts = report.verdicts.items();
    let ends = report.ends.items();
    assert!(rt; verdicts.len() == 2 && ends.len() == 2);
    assert!(rt; verdicts[0].items().is_empty() && ends[0].end == FileEnd::NotOpened);
    assert!(rt; ends[0].faults_before == 0 && ends[0].faults_after == 1);
    assert!(rt; verdicts[1].items().len() == 1 && ends[1].end == FileEnd::BadLine(2));
    assert!(rt; verdicts[1].items()[0] == Verdict::Accepted(MetricId(0)));
    Ok(())
}
