//! What is counted of verdicts and of rows.
ghost use Rattle.std.specs.Prelude.{◌≡◌, length, not, count_by, sum_by};
ghost use Rattle.flush_view.specs.Output.{took_effect};
ghost use Rattle.load_text.specs.Summary.{events_told, accepted, dropped, word_in};

use stat_defs::{CounterRow, GaugeRow, List, Verdict};

fn took_effect(verdict: &Verdict) -> bool
    ensures { result ≡ took_effect verdict.now }
{
    matches!(
        verdict,
        Verdict::Accepted(_) | Verdict::Opened(_) | Verdict::Released(_)
    )
}

/// How many events the verdicts are of.
pub(crate) fn events_told(verdicts: &[List<Verdict>]) -> u128
    ensures { result ≡ events_told verdicts.now }
{
    let mut count = 0;
    for of_script in verdicts {
        count += of_script.items().len() as u128;
    }
    count
}

fn accepted_in(verdicts: &[Verdict]) -> usize
    ensures { result ≡ count_by took_effect verdicts.now }
{
    verdicts
        .iter()
        .filter(|verdict| took_effect(verdict))
        .count()
}

fn dropped_in(verdicts: &[Verdict]) -> usize
    ensures { result ≡ count_by (λ v. not (took_effect v)) verdicts.now }
{
    verdicts
        .iter()
        .filter(|verdict| !took_effect(verdict))
        .count()
}

/// How many events took effect.
pub(crate) fn accepted(verdicts: &[List<Verdict>]) -> u128
    ensures { result ≡ accepted verdicts.now }
{
    let mut count = 0;
    for of_script in verdicts {
        count += accepted_in(of_script.items()) as u128;
    }
    count
}

/// How many did not.
pub(crate) fn dropped(verdicts: &[List<Verdict>]) -> u128
    ensures { result ≡ dropped verdicts.now }
{
    let mut count = 0;
    for of_script in verdicts {
        count += dropped_in(of_script.items()) as u128;
    }
    count
}

/// The units of all counters.
pub(crate) fn units_of(rows: &[CounterRow]) -> u128
    ensures { result ≡ sum_by (λ row. row.total) rows.now }
{
    let mut units = 0;
    for row in rows {
        units += u128::from(row.total);
    }
    units
}

/// The words of all gauges.
pub(crate) fn words_of(rows: &[GaugeRow]) -> u128
    ensures { result ≡ sum_by word_in rows.now }
{
    let mut words = 0;
    for row in rows {
        words += u128::from(row.value.cast_unsigned());
    }
    words
}
