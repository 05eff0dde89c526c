//! `replay [--symbols] [--format F] BOOT FILE..`.
ghost use Rattle.std.specs.Prelude.{◌≡◌, ◌≤◌, IfOk, length, map, string_bytes};
ghost use Rattle.file_reading.specs.declared.limits.TheConstants as limits;
ghost use Rattle.replay_files.specs.ReplayReport.{IsReplayOf};
ghost use Rattle.report_text.specs.ReportText.{report_text};
ghost use Rattle.stats_commands.specs.FaultLines.{fault_lines};
ghost use Rattle.stats_commands.specs.World.{world, sight};
ghost use Rattle.stats_commands.specs.Outcome.{Replays, ends_of};
ghost use Rattle.stats_commands.specs.Replay.{IsBuilt, IsRecorded, Records, EndsAs, EndsWith};

use crate::outcome::{Outcome, give_up, refuse_boot};
use crate::status;
use crate::status::status_of_all;
use crate::telling::{WRITE_FAILED, fault_lines, say};
use boot_load::{Boot, LoadFault, load};
use command_words::Reporting;
use name_map::HashKey;
use output_options::OutputOptions;
use replay_files::replay_files;
use report_text::write_report;
use stat_defs::{Config, LogNames, NoMemory, Report, Reported};
use stats_io::{Shelf, Sink};
use std::alloc::Global;
use tag_rules::{Buckets, PatternMaker};
use text_parts::TextFault;

/// A report with the names in its log, and what its text is made with besides.
#[derive(Drop)]
pub struct Recorded {
    pub report: Report,
    pub names: LogNames,
    pub config: Config,
    pub buckets: Buckets,
}

// Replays files under a bootstrap that was loaded.
fn record<F: Shelf>(
    alloc: Global,
    key: HashKey,
    boot: Boot,
    files: &[String],
    shelf: &mut F,
) -> Result<Recorded, NoMemory>
    requires built { IsBuilt boot }
    requires few { length files.now ≤ limits.MAX_FILES }
    ensures { IfOk result (Records (IsReplayOf F.state F.S.state (F.holds shelf.old)) boot.config
        (map string_bytes files.now) shelf.old shelf.new) }
{
    let Boot {
        config,
        rules,
        matcher,
        buckets,
        view_rules: _,
    } = boot;
    let Reported { report, names } = replay_files(
        alloc, key, &config, rules, matcher, files, shelf,
    )?;
    Ok(Recorded {
        report,
        names,
        config,
        buckets,
    })
}

// Says how the files of a report ended, and then how the writing of its text did.
fn end_as<E: Sink>(
    report: Report,
    faults: &[u8],
    written: Result<(), TextFault>,
    err: &mut E,
) -> Outcome
    requires { faults.now ≡ fault_lines 1 (ends_of report) }
    ensures ends { EndsAs (E.state err.old) (E.state err.new) report written result.status result.report }
    ensures boot_faults { result.boot_faults ≡ 0 }
{
    match written {
        Ok(()) => {
            say(err, faults);
            Outcome {
                status: status_of_all(report.ends.items()),
                report: Some(report),
                boot_faults: 0,
            }
        }
        Err(TextFault::WriteFault) => {
            say(err, faults);
            say(err, WRITE_FAILED);
            Outcome {
                status: status::UNWRITTEN,
                report: Some(report),
                boot_faults: 0,
            }
        }
        Err(TextFault::NoMemory) => give_up(err),
    }
}

/// Writes the text of a report, and says how it ended. What is said of the files is made before a byte is written.
pub fn tell<O: Sink, E: Sink>(
    alloc: Global,
    options: OutputOptions,
    recorded: Recorded,
    out: &mut O,
    err: &mut E,
) -> Outcome
    requires { IsRecorded recorded }
    ensures ends { EndsWith O.state out.old out.new (E.state err.old) (E.state err.new)
        (report_text options recorded.config recorded.report) recorded.report result.status result.report }
    ensures boot_faults { result.boot_faults ≡ 0 }
{
    let Recorded {
        report,
        names,
        config,
        buckets,
    } = recorded;
    match fault_lines(alloc, report.ends.items()) {
        Ok(faults) => {
            let written = write_report(alloc, options, &config, names, &buckets, &report, out);
            end_as(report, &faults, written, err)
        }
        Err(NoMemory) => give_up(err),
    }
}

/// Loads a bootstrap, applies the events of the files and writes what the options ask for.
pub fn replay<K: PatternMaker, F: Shelf, O: Sink, E: Sink>(
    alloc: Global,
    key: HashKey,
    asked: &Reporting,
    maker: &mut K,
    shelf: &mut F,
    out: &mut O,
    err: &mut E,
) -> Outcome
    ensures { Replays (sight K.memory F.holds F.state F.S.state O.state E.state)
        (world maker.old shelf.old out.old err.old) (world maker.new shelf.new out.new err.new)
        asked.now.options (string_bytes asked.now.boot) (map string_bytes asked.now.files.items) result }
{
    match load(alloc, asked.boot.as_str(), maker, shelf) {
        Ok(boot) => match record(alloc, key, boot, &asked.files, shelf) {
            Ok(recorded) => tell(alloc, asked.options, recorded, out, err),
            Err(NoMemory) => give_up(err),
        },
        Err(LoadFault::NoMemory) => give_up(err),
        Err(fault) => refuse_boot(alloc, &fault, err),
    }
}
