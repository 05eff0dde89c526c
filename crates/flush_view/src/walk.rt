//! A walk through the log of a report, for what is known of metrics before the sweep of each flush.
//!
//! The book itself would tell it too, but its tables are not needed: a metric is made and gone by the changes that came
//! with the report, and its text is set by a call.
ghost use Rattle.std.specs.Prelude.{◌≡◌, ◌<◌, ◌≤◌, ◌+◌, None, IfOk, OnOk, fold, length, option_map};
ghost use Rattle.book_state.specs.Step.{change_at};
ghost use Rattle.name_changes.specs.Changes.{changes_in};
ghost use Rattle.flush_view.specs.Kept.{befores_of};
ghost use Rattle.flush_view.specs.Showing.{IsShowable};
ghost use Rattle.flush_view.specs.Views.{view_rules, ends_in};
ghost use Rattle.flush_view.specs.Walk.{changed_left, left_after, changes_told, followed, IsThere, GoesTo};

use crate::before::Before;
use stat_defs::{Call, Config, Entry, List, NameOp, NoMemory, Reply, Report, Txt};
use std::alloc::Global;

// A place in the log of a report.
#[derive(Drop)]
struct Walk<'a> {
    report: &'a Report,
    // How many entries stand before it.
    at: usize,
    // The changes that the entries behind it make.
    changes: &'a [NameOp],
    // What is known there of the metrics that were made, by their numbers.
    lefts: Vec<Option<Txt>>,
}

// Carries a change out.
fn change_left(alloc: Global, lefts: &mut Vec<Option<Txt>>, change: &NameOp) -> Result<(), NoMemory>
    ensures { OnOk result (lefts.new.items ≡ changed_left lefts.old.items change.now) }
{
    match change {
        NameOp::Made { .. } => lefts.push(Some(Txt::of(alloc, b"")?))?,
        NameOp::Gone { id, .. } => forget(lefts, id.0 as usize),
    }
    Ok(())
}

// Of the metric of this number nothing is known any more.
fn forget(lefts: &mut Vec<Option<Txt>>, id: usize)
    ensures { lefts.new.items ≡ change_at (λ left. None) id lefts.old.items }
{
    if id >= lefts.len() {
        return;
    }
    lefts[id] = None;
}

// The text in the place of one that is known.
fn with_text(left: &Option<Txt>, text: &Txt) -> Result<Option<Txt>, NoMemory>
    ensures { IfOk result (λ new. new ≡ option_map (λ old. text.now) left.now) }
{
    match left {
        Some(_) => Ok(Some(text.clone()?)),
        None => Ok(None),
    }
}

// Replaces the text of the metric of this number, if it is known.
fn retext(lefts: &mut Vec<Option<Txt>>, id: usize, text: &Txt) -> Result<(), NoMemory>
    ensures { OnOk result (lefts.new.items ≡ change_at (option_map (λ old. text.now)) id lefts.old.items) }
{
    if id >= lefts.len() {
        return Ok(());
    }
    let left = with_text(&lefts[id], text)?;
    lefts[id] = left;
    Ok(())
}

// Carries a call out, as far as it sets a text.
fn set_left(lefts: &mut Vec<Option<Txt>>, call: &Call) -> Result<(), NoMemory>
    ensures { OnOk result (lefts.new.items ≡ left_after call.now lefts.old.items) }
{
    match call {
        Call::SetText { id, text } => retext(lefts, id.0 as usize, text),
        _ => Ok(()),
    }
}

// Carries an entry out that made these changes.
fn follow(
    alloc: Global,
    lefts: &mut Vec<Option<Txt>>,
    entry: &Entry,
    changes: &[NameOp],
) -> Result<(), NoMemory>
    ensures { OnOk result (lefts.new.items ≡ followed lefts.old.items entry.now changes.now) }
{
    change_all(alloc, lefts, changes)?;
    set_left(lefts, &entry.call)
}

fn change_all(
    alloc: Global,
    lefts: &mut Vec<Option<Txt>>,
    changes: &[NameOp],
) -> Result<(), NoMemory>
    ensures { OnOk result (lefts.new.items ≡ fold changed_left lefts.old.items changes.now) }
{
    for change in changes {
        change_left(alloc, lefts, change)?;
    }
    Ok(())
}

// How many changes an entry made.
fn changes_told(reply: &Reply) -> usize
    ensures { result ≡ changes_told reply.now }
{
    match reply {
        Reply::Made { .. } => 1,
        Reply::Swept(count) => *count as usize,
        _ => 0,
    }
}

impl Walk<'_> {
    // Goes on by one entry.
    fn step(&mut self, alloc: Global, _config: &Config) -> Result<(), NoMemory>
        requires there { IsThere _config.now self.old }
        requires showable { IsShowable _config.now self.old.report.now }
        requires within { self.old.at < length self.old.report.now.log }
        ensures { OnOk result (GoesTo _config.now (self.old.at + 1) self.old self.new) }
    {
        let report = self.report;
        let entry = &report.log.items()[self.at];
        let (own, later) = self.changes.split_at(changes_told(&entry.reply));
        follow(alloc, &mut self.lefts, entry, own)?;
        self.changes = later;
        self.at += 1;
        Ok(())
    }

    // Goes on to this place.
    fn go_to(&mut self, alloc: Global, _config: &Config, place: usize) -> Result<(), NoMemory>
        requires there { IsThere _config.now self.old }
        requires showable { IsShowable _config.now self.old.report.now }
        requires behind { self.old.at ≤ place }
        requires within { place ≤ length self.old.report.now.log }
        ensures { OnOk result (GoesTo _config.now place self.old self.new) }
    {
        for _i in self.at..place {
            self.step(alloc, _config)?;
        }
        Ok(())
    }
}

fn copy_of_left(left: &Option<Txt>) -> Result<Option<Txt>, NoMemory>
    ensures { IfOk result (λ copy. copy ≡ left.now) }
{
    match left {
        Some(text) => Ok(Some(text.clone()?)),
        None => Ok(None),
    }
}

fn copy_of_lefts(alloc: Global, lefts: &[Option<Txt>]) -> Result<Before, NoMemory>
    ensures { IfOk result (λ copies. copies ≡ lefts.now) }
{
    let mut copies = Vec::with_capacity(alloc, lefts.len())?;
    for left in lefts {
        copies.push(copy_of_left(left)?)?;
    }
    Ok(List::of(copies))
}

/// What is known before the sweep of each flush of a report, in whose log these are the changes of the names. It takes
/// time in the log, and in the metrics for each flush. Contracts alone ask for the configuration.
pub(crate) fn befores_in(
    alloc: Global,
    _config: &Config,
    changes: &[NameOp],
    report: &Report,
) -> Result<Vec<Before>, NoMemory>
    requires showable { IsShowable _config.now report.now }
    requires changes { changes.now ≡ changes_in (view_rules _config.now).names (ends_in report.now.log) report.now.log }
    ensures { IfOk result (λ befores. befores.items ≡ befores_of _config.now report.now) }
{
    let flushes = report.flushes.items();
    let mut befores = Vec::with_capacity(alloc, flushes.len())?;
    let mut walk = Walk {
        report,
        at: 0,
        changes,
        lefts: Vec::new(alloc),
    };
    for flush in flushes {
        let place = (flush.at as usize).min(report.log.items().len());
        walk.go_to(alloc, _config, place)?;
        befores.push(copy_of_lefts(alloc, &walk.lefts)?)?;
    }
    Ok(befores)
}
