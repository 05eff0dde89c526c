//! Laws of the runs of scripts. Each function does nothing.
ghost use Rattle.load_run.specs.Laws.{SameSummary};

/// A law: where a configuration asks for no flush but the last and for no reading, what is told of a run of scripts is
/// what is told of a replay of them.
pub fn same_summary()
    ensures { SameSummary }
{
    same_output::same_output();
}
