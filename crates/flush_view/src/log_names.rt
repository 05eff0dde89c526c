//! What became of the names in a log, where the store that wrote it is not at hand.
ghost use Rattle.std.specs.Prelude.{◌≡◌, ◌≤◌, ◌++◌, IfOk, OnOk, fold, length, map};
ghost use Rattle.stat_defs.specs.declared.history.NameOp.TheVariants as op;
ghost use Rattle.book_state.specs.declared.limits.TheConstants.{MAX_WORKERS};
ghost use Rattle.book_state.specs.Stored.{after_entry};
ghost use Rattle.name_changes.specs.Changes.{changes_by};
ghost use Rattle.flush_view.specs.Replaying.{AreNext};
ghost use Rattle.flush_view.specs.Showing.{IsShowable};
ghost use Rattle.flush_view.specs.Views.{view_rules, ends_in, names_shown};
ghost use Rattle.flush_view.specs.Walk.{changes_behind};

use crate::replaying::ends_in;
use book_state::{BookState, StateParts};
use stat_defs::{Call, Config, Entry, List, LogNames, MetricId, NameOp, NoMemory, Reply, Report};
use std::alloc::Global;
use tag_rules::TagRules;

// How many workers a log has.
fn workers_of(log: &[Entry]) -> u32
    requires { ends_in log.now ≤ MAX_WORKERS }
    ensures { result ≡ ends_in log.now }
{
    ends_in(log) as u32
}

fn push_gone(changes: &mut Vec<NameOp>, at: u64, ids: &[MetricId]) -> Result<(), NoMemory>
    ensures { OnOk result (changes.new.items ≡ changes.old.items ++ map (λ id. op.Gone at id) ids.now) }
{
    for id in ids {
        changes.push(NameOp::Gone { at, id: *id })?;
    }
    Ok(())
}

// Adds the changes of an entry behind which the log has this length.
fn push_changes(
    alloc: Global,
    book: &BookState,
    at: u64,
    entry: &Entry,
    changes: &mut Vec<NameOp>,
) -> Result<(), NoMemory>
    ensures { OnOk result (changes.new.items
        ≡ changes.old.items ++ changes_by book.now.state at entry.now.call entry.now.reply) }
{
    match (&entry.call, &entry.reply) {
        (Call::Find { key }, Reply::Made { id, .. }) => changes.push(NameOp::Made {
            at,
            id: *id,
            kind: key.kind,
        })?,
        (Call::Sweep, Reply::Swept(_)) => push_gone(changes, at, &book.overdue(alloc)?)?,
        _ => {}
    }
    Ok(())
}

// Applies a log from its first entry on, and tells its changes.
fn changes_of(alloc: Global, book: &mut BookState, log: &[Entry]) -> Result<Vec<NameOp>, NoMemory>
    requires { AreNext book.old log.now }
    ensures changes { IfOk result (λ changes. changes.items ≡ changes_behind book.old 0 log.now) }
    ensures book { OnOk result (book.new ≡ fold after_entry book.old log.now) }
{
    let mut changes = Vec::new(alloc);
    let mut at = 0;
    for entry in log {
        at += 1;
        push_changes(alloc, book, at, entry, &mut changes)?;
        book.apply(alloc, entry)?;
    }
    Ok(changes)
}

/// What became of the names in the log of a report, where the store that wrote it is not at hand. Rules are those that
/// were built from the configuration, for which contracts alone ask besides.
pub fn names_of_log(
    alloc: Global,
    _config: &Config,
    rules: TagRules,
    report: &Report,
) -> Result<LogNames, NoMemory>
    requires rules { rules ≡ _config.now.tags }
    requires showable { IsShowable _config.now report.now }
    ensures { IfOk result (λ names. names ≡ names_shown (view_rules _config.now).names report.now.log) }
{
    let log = report.log.items();
    let mut book = BookState::new(alloc, rules, workers_of(log))?;
    let changes = changes_of(alloc, &mut book, log)?;
    let StateParts { rules: _, metrics } = book.into_parts(alloc)?;
    Ok(LogNames {
        metrics: List::of(metrics),
        changes: List::of(changes),
    })
}
