//! Laws of the scripts. Each function does nothing.
ghost use Rattle.std.specs.Prelude.{◌≡◌, ◌≤◌, ℕ, [], ◌∷◌, codes};
ghost use Rattle.stat_defs.specs.declared.events.Event.TheVariants.{Inc, Gauge, Rec};
ghost use Rattle.stat_defs.specs.declared.events.GaugeOp.TheVariants.{Add};
ghost use Rattle.stat_defs.specs.declared.ids.Mode.TheVariants.{Accumulate};
ghost use Rattle.stat_defs.specs.declared.reports.FileEnd.TheVariants.{Whole};
ghost use Rattle.event_script.specs.Script.{File};
ghost use Rattle.load_scripts.specs.declared.limits.TheConstants.{MAX_SCRIPTS, MAX_SCRIPT_EVENTS};
ghost use Rattle.load_scripts.specs.Load.{counter_name, histogram_name, gauge_name};
ghost use Rattle.load_scripts.specs.Load.{script_events, script_text};

/// A law: the text of a script is a file of its events, and whole.
pub fn scripts_are_files()
    ensures { (script n : ℕ) → script ≤ MAX_SCRIPTS → n ≤ MAX_SCRIPT_EVENTS
        → File (script_text script n) (script_events script n) Whole }
{}

/// A law: the first events of the first three scripts.
pub fn first_events()
    ensures first { script_events 1 1 ≡ Rec (codes "root") (histogram_name 5) 43_766 ∷ [] }
    ensures second { script_events 2 1 ≡ Inc (codes "root") (counter_name 123) 526 ∷ [] }
    ensures third { script_events 3 1 ≡ Gauge (codes "root") (gauge_name 3) Accumulate Add 709 ∷ [] }
{}
