//! Files that are read and applied, one after another.
ghost use Rattle.std.specs.Prelude.{◌≡◌, ◌≤◌, ◌<◌, ◌+◌, ◌*◌, ◌++◌, ◌∷◌, [], ℕ, List, Ok, IfOk, OnOk};
ghost use Rattle.std.specs.Prelude.{length, map, string_bytes};
ghost use Rattle.stat_defs.specs.Borrowed.{event_of};
ghost use Rattle.stat_defs.specs.Events.{IsLawfulEvent};
ghost use Rattle.event_script.specs.declared.limits.TheConstants as file;
ghost use Rattle.plain_store.specs.declared.worker.TheConstants as worker;
ghost use Rattle.replay_files.specs.Applying.{IsToldBehind};
ghost use Rattle.replay_files.specs.FileRun.{IsSourceRun, IsFileRun, AreRuns};

use event_script::Lines;
use file_reading::{FileRun, end_of, event_or_end, open_file};
use plain_store::PlainStore;
use stat_defs::{EventRef, List, NoMemory, Verdict, WorkerEnd};
use stats_io::{Shelf, Source};
use std::alloc::Global;

/// What came of files: the verdicts of each, and the end of each.
#[derive(Drop)]
pub(crate) struct Runs {
    pub(crate) verdicts: Vec<List<Verdict>>,
    pub(crate) ends: Vec<WorkerEnd>,
}

// Applies an event, whose verdict comes behind the earlier ones.
#[inline(always)]
fn tell_verdict(
    alloc: Global,
    store: &mut PlainStore,
    event: &EventRef<'_>,
    verdicts: &mut Vec<Verdict>,
) -> Result<(), NoMemory>
    requires lawful { IsLawfulEvent (event_of event.now) }
    requires few { length store.old.worker.events < worker.MAX_EVENTS }
    ensures { OnOk result (IsToldBehind store.old
        (event_of event.now) verdicts.old.items store.new verdicts.new.items) }
{
    let verdict = store.apply_ref(alloc, event)?;
    verdicts.push(verdict)?;
    Ok(())
}

// Reads a source to its end and applies its events.
fn read_source<S: Source + Drop>(
    alloc: Global,
    source: S,
    store: &mut PlainStore,
) -> Result<FileRun, NoMemory>
    requires { length store.old.worker.events + file.MAX_EVENTS ≤ worker.MAX_EVENTS }
    ensures { IfOk result (λ run. IsSourceRun S.state source store.old store.new run) }
{
    let faults_before = source.fault_count();
    let mut verdicts = Vec::new(alloc);
    let mut lines = Lines::new(alloc, source)?;
    loop {
        let step = lines.next_ref(alloc)?;
        match event_or_end(step) {
            Ok(event) => tell_verdict(alloc, store, &event, &mut verdicts)?,
            Err(end) => {
                let end = end_of(lines, end, faults_before);
                return Ok(FileRun { verdicts, end });
            }
        }
    }
}

// Opens a file of a shelf, reads it to its end and applies its events.
fn read_file<F: Shelf>(
    alloc: Global,
    shelf: &mut F,
    name: &str,
    store: &mut PlainStore,
) -> Result<FileRun, NoMemory>
    requires { length store.old.worker.events + file.MAX_EVENTS ≤ worker.MAX_EVENTS }
    ensures read { IfOk result (λ run. IsFileRun F.state F.S.state (F.holds shelf.old) name.now shelf.old shelf.new
        store.old store.new run) }
    ensures contents { (other : List ℕ) → F.holds shelf.new other ≡ F.holds shelf.old other }
{
    match open_file(alloc, shelf, name)? {
        Ok(source) => read_source(alloc, source, store),
        Err(end) => Ok(FileRun {
            verdicts: Vec::new(alloc),
            end,
        }),
    }
}

// Adds what came of one file more.
fn push_run(runs: &mut Runs, run: FileRun) -> Result<(), NoMemory>
    ensures verdicts { OnOk result (runs.new.verdicts.items ≡ runs.old.verdicts.items ++ run.verdicts.items ∷ []) }
    ensures ends { OnOk result (runs.new.ends.items ≡ runs.old.ends.items ++ run.end ∷ []) }
{
    let FileRun { verdicts, end } = run;
    runs.verdicts.push(List::of(verdicts))?;
    runs.ends.push(end)?;
    Ok(())
}

/// Opens the files of a shelf one after another, reads each to its end and applies its events. A file that cannot be
/// opened has none.
pub(crate) fn read_files<F: Shelf>(
    alloc: Global,
    shelf: &mut F,
    names: &[String],
    store: &mut PlainStore,
) -> Result<Runs, NoMemory>
    requires { length store.old.worker.events + length names.now * file.MAX_EVENTS ≤ worker.MAX_EVENTS }
    ensures { IfOk result (λ runs. AreRuns F.state F.S.state (F.holds shelf.old) (map string_bytes names.now)
        shelf.old shelf.new store.old store.new runs) }
{
    let mut runs = Runs {
        verdicts: Vec::new(alloc),
        ends: Vec::new(alloc),
    };
    for name in names {
        let run = read_file(alloc, shelf, name.as_str(), store)?;
        push_run(&mut runs, run)?;
    }
    Ok(runs)
}
