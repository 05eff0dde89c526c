//! The summary of a load.
ghost use Rattle.std.specs.Prelude.{◌≡◌, None, IfOk};
ghost use Rattle.load_text.specs.Summarized.{IsSummaryOf};
ghost use Rattle.stats_commands.specs.Summing.{IsSummable, TellsSummary};

use crate::outcome::{Outcome, give_up, print};
use crate::replay::Recorded;
use command_words::Load;
use flush_view::flush_view;
use load_text::summary;
use stat_defs::NoMemory;
use stats_io::Sink;
use std::alloc::Global;

// The summary of a report, which has one flush.
fn summary_of(alloc: Global, asked: Load, recorded: Recorded) -> Result<Vec<u8>, NoMemory>
    requires { IsSummable recorded }
    ensures { IfOk result (λ text. IsSummaryOf recorded.config asked.scripts asked.events recorded.report text.items) }
{
    let Recorded {
        report,
        names,
        config,
        buckets,
    } = recorded;
    let view = flush_view(alloc, &config, names, &buckets, &report, 0)?;
    summary(
        alloc,
        asked.scripts,
        asked.events,
        report.verdicts.items(),
        &view,
    )
}

/// Writes the summary of a load's report.
pub fn tell_summary<O: Sink, E: Sink>(
    alloc: Global,
    asked: Load,
    recorded: Recorded,
    out: &mut O,
    err: &mut E,
) -> Outcome
    requires { IsSummable recorded }
    ensures report { result.report ≡ None }
    ensures boot_faults { result.boot_faults ≡ 0 }
    ensures told { TellsSummary O.state out.old out.new (E.state err.old) (E.state err.new)
        recorded.config asked.scripts asked.events recorded.report result.status }
{
    match summary_of(alloc, asked, recorded) {
        Ok(text) => Outcome {
            status: print(&text, out, err),
            report: None,
            boot_faults: 0,
        },
        Err(NoMemory) => give_up(err),
    }
}
