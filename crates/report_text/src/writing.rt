//! The writing of a report.
ghost use Rattle.std.specs.Prelude.{◌≡◌, ◌≤◌, ◌++◌};
ghost use Rattle.text_parts.specs.Answer.{IsTextAnswer};
ghost use Rattle.flush_view.specs.Showing.{IsShowable};
ghost use Rattle.flush_view.specs.Views.{view_rules, last_state, names_shown};
ghost use Rattle.report_text.specs.ReportText.{report_text};
ghost use Rattle.report_text.specs.Parts.{symbol_rows, symbols_text, text_behind, workers_text};

use crate::readings::write_reads;
use crate::sections::write_flushes;
use crate::symbols::write_metrics;
use crate::workers::write_workers;
use flush_view::ReportViews;
use output_options::OutputOptions;
use stat_defs::{Config, List, LogNames, Report, Verdict};
use stats_io::{Sink, push_all};
use std::alloc::Global;
use tag_rules::Buckets;
use text_parts::TextFault;

/// Writes the rows of symbols.
fn write_symbol_rows<O: Sink>(
    alloc: Global,
    views: &ReportViews<'_>,
    out: &mut O,
) -> Result<(), TextFault>
    ensures answer { IsTextAnswer (O.state out.old) (O.state out.new)
        (symbol_rows (last_state (view_rules views.now.config).names views.now.report.log)) result }
    ensures later { (O.state out.old).faults ≤ (O.state out.new).faults }
{
    let metrics = views.live_metrics(alloc)?;
    push_all(out, b"# symbols\n")?;
    write_metrics(alloc, &metrics, out)
}

/// Writes the rows of symbols where they are asked for.
fn write_symbols<O: Sink>(
    alloc: Global,
    asked: bool,
    views: &ReportViews<'_>,
    out: &mut O,
) -> Result<(), TextFault>
    ensures answer { IsTextAnswer (O.state out.old) (O.state out.new)
        (symbols_text asked (last_state (view_rules views.now.config).names views.now.report.log)) result }
    ensures later { (O.state out.old).faults ≤ (O.state out.new).faults }
{
    if asked {
        write_symbol_rows(alloc, views, out)
    } else {
        Ok(())
    }
}

/// Writes the rows of symbols and the lines of the files.
fn write_rows<O: Sink>(
    alloc: Global,
    symbols: bool,
    views: &ReportViews<'_>,
    lists: &[List<Verdict>],
    out: &mut O,
) -> Result<(), TextFault>
    ensures answer { IsTextAnswer (O.state out.old) (O.state out.new)
        (symbols_text symbols (last_state (view_rules views.now.config).names views.now.report.log)
        ++ workers_text lists.now) result }
    ensures later { (O.state out.old).faults ≤ (O.state out.new).faults }
{
    write_symbols(alloc, symbols, views, out)?;
    write_workers(alloc, lists, out)
}

/// Writes what stands behind the flushes.
fn write_behind<O: Sink>(
    alloc: Global,
    symbols: bool,
    views: &ReportViews<'_>,
    report: &Report,
    out: &mut O,
) -> Result<(), TextFault>
    requires { views.now.report ≡ report.now }
    ensures answer { IsTextAnswer (O.state out.old) (O.state out.new)
        (text_behind (view_rules views.now.config) symbols report.now) result }
    ensures later { (O.state out.old).faults ≤ (O.state out.new).faults }
{
    write_reads(alloc, report.reads.items(), out)?;
    write_rows(alloc, symbols, views, report.verdicts.items(), out)
}

/// Writes the text of a report, which came with these names. Its views are made and written one after another. Buckets
/// are those that were built from the configuration.
pub fn write_report<O: Sink>(
    alloc: Global,
    options: OutputOptions,
    config: &Config,
    names: LogNames,
    buckets: &Buckets,
    report: &Report,
    out: &mut O,
) -> Result<(), TextFault>
    requires names { names ≡ names_shown (view_rules config.now).names report.now.log }
    requires buckets { buckets.now ≡ config.now.buckets }
    requires showable { IsShowable config.now report.now }
    ensures answer { IsTextAnswer (O.state out.old) (O.state out.new)
        (report_text options config.now report.now) result }
    ensures later { (O.state out.old).faults ≤ (O.state out.new).faults }
{
    let count = report.flushes.items().len();
    let mut views = ReportViews::new(alloc, config, names, buckets, report)?;
    write_flushes(
        alloc,
        options.format,
        &config.statsd_prefix,
        count,
        &mut views,
        out,
    )?;
    write_behind(alloc, options.symbols, &views, report, out)
}
