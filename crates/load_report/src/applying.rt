//! Scripts that are applied, one after another. Their events are applied as they are made, and not gathered.
ghost use Rattle.std.specs.Prelude.{◌≡◌, ◌≤◌, ◌<◌, ◌+◌, ◌*◌, length, vec_capacity, map, IfOk, OnOk};
ghost use Rattle.std.specs.List.{range_with_len};
ghost use Rattle.stat_defs.specs.Borrowed.{event_of};
ghost use Rattle.stat_defs.specs.Events.{IsLawfulEvent};
ghost use Rattle.load_scripts.specs.declared.limits.TheConstants.{MAX_SCRIPTS};
ghost use Rattle.load_scripts.specs.Load.{script_events};
ghost use Rattle.plain_store.specs.declared.worker.TheConstants.{MAX_EVENTS};
ghost use Rattle.replay_files.specs.Applying.{AreApplied, IsToldBehind};
ghost use Rattle.load_report.specs.LoadRun.{AreScriptsApplied, script_ends};

use load_scripts::{ScriptNames, next_state};
use plain_store::PlainStore;
use stat_defs::{EventRef, FileEnd, List, NoMemory, Verdict, WorkerEnd};
use std::alloc::Global;

// Applies an event, whose verdict comes behind the earlier ones, where there is room for it.
#[inline(always)]
fn tell_verdict(
    alloc: Global,
    store: &mut PlainStore,
    event: &EventRef<'_>,
    verdicts: &mut Vec<Verdict>,
) -> Result<(), NoMemory>
    requires lawful { IsLawfulEvent (event_of event.now) }
    requires few { length store.old.worker.events < MAX_EVENTS }
    requires room { length verdicts.old.items < vec_capacity verdicts.old }
    ensures told { OnOk result (IsToldBehind store.old
        (event_of event.now) verdicts.old.items store.new verdicts.new.items) }
    ensures room { vec_capacity verdicts.new ≡ vec_capacity verdicts.old }
{
    let verdict = store.apply_ref(alloc, event)?;
    verdicts.push_reserved(verdict);
    Ok(())
}

// Applies the events of a script, each of which has a verdict. An event takes no memory but the store's.
fn apply_script(
    alloc: Global,
    store: &mut PlainStore,
    script: u32,
    events: u32,
) -> Result<Vec<Verdict>, NoMemory>
    requires script { script ≤ MAX_SCRIPTS }
    requires room { length store.old.worker.events + events ≤ MAX_EVENTS }
    ensures { IfOk result (λ verdicts. AreApplied store.old (script_events script events) verdicts.items store.new) }
{
    let names = ScriptNames::new(alloc, script)?;
    let mut verdicts = Vec::with_capacity(alloc, events as usize)?;
    let mut state = u64::from(script);
    for _ in 0..events {
        state = next_state(state);
        tell_verdict(alloc, store, &names.event(state), &mut verdicts)?;
    }
    Ok(verdicts)
}

/// Applies the events of so many scripts, one script after another. They are numbered from 1.
pub(crate) fn apply_scripts(
    alloc: Global,
    store: &mut PlainStore,
    scripts: u32,
    events: u32,
) -> Result<Vec<List<Verdict>>, NoMemory>
    requires scripts { scripts ≤ MAX_SCRIPTS }
    requires room { length store.old.worker.events + scripts * events ≤ MAX_EVENTS }
    ensures { IfOk result (λ verdicts. AreScriptsApplied store.old scripts events verdicts.items store.new) }
{
    let mut verdicts = Vec::new(alloc);
    for before in 0..scripts {
        let told = apply_script(alloc, store, before + 1, events)?;
        verdicts.push(List::of(told))?;
    }
    Ok(verdicts)
}

/// The ends of so many scripts, each of which is whole.
pub(crate) fn script_ends(alloc: Global, scripts: u32) -> Result<Vec<WorkerEnd>, NoMemory>
    ensures { IfOk result (λ ends. ends.items ≡ script_ends scripts) }
{
    let end = WorkerEnd {
        end: FileEnd::Whole,
        taken: 0,
        faults_before: 0,
        faults_after: 0,
    };
    let ends = vec![in alloc; end; scripts as usize]?;
    Ok(ends)
}
