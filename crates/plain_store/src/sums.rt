//! What a store sums up between its flushes.
ghost use Rattle.std.specs.Prelude.{◌≡◌, ◌≤◌, ◌<◌, ◌+◌, ◌^◌, ◌==◌, ℕ, if◌then◌else◌, OnOk, OnErr, vec_len};
ghost use Rattle.ledger.specs.Gauges.{word_after};
ghost use Rattle.plain_store.specs.Sums.{number_at, AreZero};

use merge_round::{Half, Parents};
use stat_defs::{GaugeOp, MetricId, NoMemory};
use std::alloc::Global;

/// The sums of what was accepted.
#[derive(Drop)]
pub(crate) struct Sums {
    /// The units of each counter since the flush before, by its number.
    pub(crate) deltas: Vec<u64>,
    /// The word of each gauge, by its number.
    pub(crate) words: Vec<u64>,
    /// The values of histograms since the flush before.
    pub(crate) half: Half,
    pub(crate) parents: Parents,
}

// At least so many numbers. Each that was there stays, and the others are 0.
#[inline(never)]
fn extend(words: &mut Vec<u64>, n: usize) -> Result<(), NoMemory>
    ensures same { (id : ℕ) → number_at words.new.items id ≡ number_at words.old.items id }
    ensures room { OnOk result (n ≤ vec_len words.new) }
{
    for _i in words.len()..n {
        words.push(0)?;
    }
    Ok(())
}

// The same, which is one comparison where there are as many.
#[inline(always)]
fn grow(words: &mut Vec<u64>, n: usize) -> Result<(), NoMemory>
    ensures same { (id : ℕ) → number_at words.new.items id ≡ number_at words.old.items id }
    ensures room { OnOk result (n ≤ vec_len words.new) }
{
    if n <= words.len() {
        return Ok(());
    }
    extend(words, n)
}

/// Adds units to the number of a metric, one of so many. After want of memory no number has changed.
#[inline(always)]
pub(crate) fn add(deltas: &mut Vec<u64>, made: usize, id: MetricId, n: u32) -> Result<(), NoMemory>
    requires made { id.0 < made }
    requires small { number_at deltas.old.items id.0 + n < 2 ^ 64 }
    ensures ok { OnOk result ((k : ℕ) → number_at deltas.new.items k ≡ number_at deltas.old.items k
        + (if id.0 == k then n else 0)) }
    ensures err { OnErr result ((k : ℕ) → number_at deltas.new.items k ≡ number_at deltas.old.items k) }
{
    grow(deltas, made)?;
    deltas[id.0 as usize] += u64::from(n);
    Ok(())
}

// The word of a gauge after a move.
fn moved(word: u64, op: GaugeOp, n: u64) -> u64
    ensures { result ≡ word_after word (op, n) }
{
    match op {
        GaugeOp::Add => word.wrapping_add(n),
        GaugeOp::Sub => word.wrapping_sub(n),
        GaugeOp::Set => n,
    }
}

/// Moves the word of a gauge, one of so many metrics. After want of memory no word has changed.
#[inline(always)]
pub(crate) fn move_word(
    words: &mut Vec<u64>,
    made: usize,
    id: MetricId,
    op: GaugeOp,
    n: u64,
) -> Result<(), NoMemory>
    requires { id.0 < made }
    ensures ok { OnOk result ((k : ℕ) → number_at words.new.items k
        ≡ (if id.0 == k then word_after (number_at words.old.items k) (op, n) else number_at words.old.items k)) }
    ensures err { OnErr result ((k : ℕ) → number_at words.new.items k ≡ number_at words.old.items k) }
{
    grow(words, made)?;
    let word = words[id.0 as usize];
    words[id.0 as usize] = moved(word, op, n);
    Ok(())
}

// The number of a metric.
pub(crate) fn number_at(words: &[u64], id: MetricId) -> u64
    ensures { result ≡ number_at words.now id.0 }
{
    match words.get(id.0 as usize) {
        Some(word) => *word,
        None => 0,
    }
}

impl Sums {
    /// Nothing was accepted yet. This takes no memory.
    pub(crate) fn new(alloc: Global) -> Sums
        ensures { AreZero result }
    {
        Sums {
            deltas: Vec::new(alloc),
            words: Vec::new(alloc),
            half: Half::new(alloc),
            parents: Parents::new(alloc),
        }
    }
}
