//! The events of a script, and the names in them.
ghost use Rattle.std.specs.Prelude.{◌≡◌, ◌<◌, ◌≤◌, ◌++◌, ◌^◌, IfOk, map};
ghost use Rattle.std.specs.List.{range_with_len};
ghost use Rattle.std.specs.Fmt.{decimal};
ghost use Rattle.stat_defs.specs.Borrowed.{event_of};
ghost use Rattle.stat_defs.specs.Events.{IsLawfulEvent};
ghost use Rattle.load_scripts.specs.declared.limits.TheConstants.{MAX_SCRIPTS};
ghost use Rattle.load_scripts.specs.Load.{event_by, event_at, next_state, counter_name, histogram_name, gauge_name};

use crate::state::{drawn, next_state};
use stat_defs::{Event, EventRef, GaugeOp, Mode, NoMemory, Txt};
use std::alloc::Global;
use std::marker::Model;

/// Counters that the scripts share.
const COUNTERS: usize = 512;

/// Histograms that the scripts share.
const HISTOGRAMS: usize = 16;

// What contracts have as numbers.
const _: () = prove!(COUNTERS == 512 && HISTOGRAMS == 16);

// A letter, and a number behind it.
fn lettered(alloc: Global, letter: &str, n: usize) -> Result<Txt, NoMemory>
    ensures { IfOk result (λ name. name ≡ letter.now ++ decimal n) }
{
    Txt::of_vec(format!(in alloc; "{letter}{n}")?.into_bytes())
}

// The names of a letter with the numbers from 0 on.
fn all_lettered(alloc: Global, letter: &str, count: usize) -> Result<Vec<Txt>, NoMemory>
    ensures { IfOk result (λ names. names.items ≡ map (λ i. letter.now ++ decimal i) (range_with_len 0 count)) }
{
    let mut names = Vec::new(alloc);
    for i in 0..count {
        names.push(lettered(alloc, letter, i)?)?;
    }
    Ok(names)
}

/// The names of a script's events, made once, so that its events are lent and take no memory. Contracts see them as the
/// script's number.
#[derive(Drop)]
pub struct ScriptNames {
    script: u32,
    counters: Vec<Txt>,
    histograms: Vec<Txt>,
    gauge: Txt,
}

impl Model for ScriptNames {
    ghost use Rattle.std.specs.Prelude.{ℕ};
    ghost use Rattle.load_scripts.specs.Kept.{AreNames};

    ghost Value = { ℕ };

    ghost view = { λ names. names.script };

    ghost invariant = { AreNames };
}

impl ScriptNames {
    /// The names of the script of this number. Scripts are numbered from 1.
    pub fn new(alloc: Global, script: u32) -> Result<ScriptNames, NoMemory>
        requires { script ≤ MAX_SCRIPTS }
        ensures { IfOk result (λ names. names ≡ script) }
    {
        let counters = all_lettered(alloc, "c", COUNTERS)?;
        let histograms = all_lettered(alloc, "h", HISTOGRAMS)?;
        let gauge = lettered(alloc, "g", script as usize)?;
        Ok(ScriptNames {
            script,
            counters,
            histograms,
            gauge,
        })
    }

    // The event that is drawn by these bits.
    fn event_by(&self, r: u64) -> EventRef<'_>
        requires { r < 2 ^ 31 }
        ensures { event_of result ≡ event_by self.now r }
    {
        let label = b"root".as_slice();
        if r % 4 == 2 {
            EventRef::Rec {
                label,
                name: self.histograms[(r / 4 % 16) as usize].bytes(),
                v: r / 2048 % 100_000,
            }
        } else if r % 4 == 3 {
            EventRef::Gauge {
                label,
                name: self.gauge.bytes(),
                mode: Mode::Accumulate,
                op: GaugeOp::Add,
                n: r / 2048 % 1000,
            }
        } else {
            EventRef::Inc {
                label,
                name: self.counters[(r / 4 % 512) as usize].bytes(),
                n: (r / 2048 % 1000) as u32,
            }
        }
    }

    /// The event of a state, whose texts are lent.
    pub fn event(&self, x: u64) -> EventRef<'_>
        ensures value { event_of result ≡ event_at self.now x }
        ensures lawful { IsLawfulEvent (event_of result) }
    {
        let _ = &self.script;
        self.event_by(drawn(x))
    }
}

/// The event behind a state of a script, and its own state.
pub fn load_event(alloc: Global, script: u32, x: u64) -> Result<(Event, u64), NoMemory>
    requires { script ≤ MAX_SCRIPTS }
    ensures { IfOk result (λ r. (r.0 ≡ event_at script (next_state x)) × (r.1 ≡ next_state x)) }
{
    let after = next_state(x);
    let names = ScriptNames::new(alloc, script)?;
    match names.event(after).to_event(alloc) {
        Ok(event) => Ok((event, after)),
        Err(fault) => Err(fault),
    }
}
