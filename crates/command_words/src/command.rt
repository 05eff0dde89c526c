//! A command, with what its words name.
ghost use Rattle.std.specs.Prelude.{◌≤◌, vec_len};
ghost use Rattle.file_reading.specs.declared.limits.TheConstants as limits;
ghost use Rattle.load_scripts.specs.declared.limits.TheConstants as load_limits;

use output_options::OutputOptions;

/// What the words of a run and of a replay name: `[--symbols] [--format F] BOOT FILE..`.
#[derive(Drop)]
pub struct Reporting {
    pub options: OutputOptions,
    pub boot: String,
    pub files: Vec<String>,
    ghost few: { (1 ≤ vec_len files) × (vec_len files ≤ limits.MAX_FILES) },
}

/// What the words of a load name: `[--run] W E`, so many scripts of so many events each.
#[derive(Clone, Copy)]
pub struct Load {
    /// Whether the scripts are applied side by side.
    pub run: bool,
    pub scripts: u32,
    pub events: u32,
    ghost some: { 1 ≤ scripts },
    ghost few_scripts: { scripts ≤ load_limits.MAX_SCRIPTS },
    ghost few_events: { events ≤ load_limits.MAX_SCRIPT_EVENTS },
}

/// A command with what its words name.
#[derive(Drop)]
pub enum Command {
    /// `run [--symbols] [--format F] BOOT FILE..`
    Run(Reporting),
    /// `replay [--symbols] [--format F] BOOT FILE..`
    Replay(Reporting),
    /// `check BOOT`
    Check { boot: String },
    /// `bins V..`
    Bins { values: Vec<u64> },
    /// `load [--run] W E`
    Load(Load),
}
