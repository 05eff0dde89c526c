//! Compiled regular expressions.
ghost use Rattle.std.specs.Prelude.{◌≡◌, ◌≤◌, nat_lt, IfOk, IfErr, IfSome, OnOk, length, vec_len, option_map};
ghost use Rattle.regex.specs.Failures.{IsRightKind};
ghost use Rattle.regex.specs.Patterns.{default_config};
ghost use Rattle.regex.specs.Sources.{IsRefusal};
ghost use Rattle.regex_vm.specs.Found.{span, group_cells};
ghost use Rattle.tag_rules.specs.declared.pat.TheConstants.{MAX_STATES};
ghost use Rattle.tag_rules.specs.Machines.{places_in};
ghost use Rattle.tag_rules.specs.Patterns.{leftmost, is_found, captured, IsPlaceIn};

use crate::lazy_dfa::LazyDfa;
use crate::machine::{self, place_of};
use crate::starts::Starts;
use regex::Error;
use regex_nfa::Nfa;
use regex_syntax::Config;
use regex_vm::{Backtracker, Declined};
use stat_defs::Txt;
use std::alloc::{AllocError, Global};
use std::marker::Model;
use std::sync::Mutex;

/// Maximum number of states of a pattern's program.
pub const MAX_STATES: usize = 16_384;

/// Maximum number of bytes of a program's states and transitions, without the two states that each begins with.
pub const MAX_TABLE_BYTES: usize = 1_048_576;

// The values that operators are told: contracts have them by name.
const _: () = prove!(MAX_STATES == 16_384 && MAX_TABLE_BYTES == 1_048_576);

/// The groups that a search asks for, group 0 included.
const GROUPS: u32 = 3;

/// A search may go through each state at each byte. From this many pairs of both on the DFA is asked first.
const MANY_STEPS: usize = 16_384;

// The DFA of a pattern, made where a name first needs it.
#[derive(Drop)]
enum Sieve {
    Unmade,
    Made(LazyDfa),
    Refused,
}

/// A regular expression, ready to be searched for. Contracts see it as its text, and its matches are those that `regex`
/// defines for that text. Since a contract knows nothing of what a lock has, the DFA in it carries its own text, which
/// is compared with the pattern's before its answer is taken.
pub struct Pat {
    text: Txt,
    nfa: Nfa,
    starts: Starts,
    sieve: Mutex<Sieve>,
}

// Written out, so that a caller's proof sees one call and not the drop of each field.
impl Drop for Pat {
    fn drop(self) {
        let Pat {
            text: _text,
            nfa: _nfa,
            starts: _starts,
            sieve: _sieve,
        } = self;
    }
}

impl Model for Pat {
    ghost use Rattle.std.specs.Prelude.{◌≤◌, ℕ, List, vec_len};
    ghost use Rattle.tag_rules.specs.declared.pat.TheConstants.{MAX_STATES};
    ghost use Rattle.tag_rules.specs.Machines.{Runs};
    ghost use Rattle.tag_rules.specs.Starts.{KnowsRuns};

    ghost Value = { List ℕ };

    ghost view = { λ p. p.text };

    ghost invariant = { λ p. (6 ≤ p.nfa.slot_count) × Runs p.nfa p.text × (vec_len p.nfa.states ≤ MAX_STATES)
        × KnowsRuns p.starts p.nfa };
}

impl Pat {
    /// Compiles the text. `Error::OutOfMemory` alone stands for want of memory. A text is refused for its syntax or,
    /// where it is a regular expression, for its size: a program has at most [`MAX_STATES`] states, and their tables at
    /// most [`MAX_TABLE_BYTES`] bytes. That a smaller one is made is left to `regex_compile`.
    pub fn new(alloc: Global, text: &str) -> Result<Pat, Error>
        ensures text { IfOk result (λ pattern. pattern ≡ text.now) }
        ensures refused { IfErr result (IsRefusal default_config text.now) }
        ensures kind { IfErr result (IsRightKind default_config text.now) }
    {
        let parsed = match regex_syntax::parse(alloc, text, &Config::default()) {
            Ok(parsed) => parsed,
            Err(error) => return Err(Error::from(error)),
        };
        let Ok(groups) = u32::try_from(parsed.names.len()) else {
            return Err(Error::CompiledTooBig);
        };
        let nfa = regex_compile::compile(alloc, &parsed.hir, groups.max(GROUPS), MAX_TABLE_BYTES)?;
        if has_too_many_states(&nfa) {
            return Err(Error::CompiledTooBig);
        }
        let starts = Starts::of(alloc, &parsed.hir)?;
        let Ok(text) = Txt::of(alloc, text.as_bytes()) else {
            return Err(Error::OutOfMemory);
        };
        Ok(Pat {
            text,
            nfa,
            starts,
            sieve: Mutex::new(Sieve::Unmade),
        })
    }

    /// Whether the pattern is found in the name.
    pub(crate) fn is_found(
        &self,
        alloc: Global,
        tracker: &mut Backtracker,
        name: &str,
    ) -> Result<bool, AllocError>
        ensures { IfOk result (λ found. found ≡ is_found self.now name.now) }
    {
        Ok(self.search(alloc, tracker, name, &mut [])?.is_some())
    }

    /// In the leftmost match, the place of the first group, and that of the second group, or of the first again where
    /// the second took no part. `None` where the pattern is not found or the first group took no part.
    pub(crate) fn captured(
        &self,
        alloc: Global,
        tracker: &mut Backtracker,
        name: &str,
    ) -> Result<Option<((usize, usize), (usize, usize))>, AllocError>
        ensures value { IfOk result (λ places. places ≡ captured self.now name.now) }
        ensures within { IfOk result (λ places. IfSome places (λ p. IsPlaceIn name.now p.1)) }
    {
        let mut cells = [0; 4];
        match self.search(alloc, tracker, name, &mut cells)? {
            Some(_) => Ok(places(&cells)),
            None => Ok(None),
        }
    }

    // The span of the leftmost match, with the cells of its groups.
    fn search(
        &self,
        alloc: Global,
        tracker: &mut Backtracker,
        name: &str,
        cells: &mut [usize],
    ) -> Result<Option<(usize, usize)>, AllocError>
        requires { length cells.old ≤ 4 }
        ensures span { IfOk result (λ found. found ≡ option_map span (leftmost self.now name.now)) }
        ensures cells { OnOk result (IfSome (leftmost self.now name.now)
            (λ m. cells.new ≡ group_cells m (length cells.old))) }
    {
        if self.takes_long(name) {
            if let Ok(found) = self.by_dfa(alloc, name, cells) {
                return Ok(found);
            }
        }
        machine::leftmost(alloc, &self.nfa, &self.starts, tracker, name, cells)
    }

    // Whether the name may have a match, and the search for it may take many steps.
    #[inline(always)]
    fn takes_long(&self, name: &str) -> bool {
        let steps = name.len().saturating_mul(self.nfa.states.len());
        steps >= MANY_STEPS && self.starts.range(name.as_bytes(), 0).is_some()
    }

    // What `search` finds, by the pattern's DFA, which may give up. The cells are then any.
    #[cold]
    fn by_dfa(
        &self,
        alloc: Global,
        name: &str,
        cells: &mut [usize],
    ) -> Result<Option<(usize, usize)>, Declined>
        ensures span { IfOk result (λ found. found ≡ option_map span (leftmost self.now name.now)) }
        ensures cells { OnOk result (IfSome (leftmost self.now name.now)
            (λ m. cells.new ≡ group_cells m (length cells.old))) }
    {
        let Some(mut sieve) = self.sieve.try_lock() else {
            return Err(Declined);
        };
        if let Sieve::Unmade = &*sieve {
            *sieve = made(alloc, &self.text);
        }
        match &mut *sieve {
            Sieve::Made(dfa) if dfa.is_of(&self.text) => dfa.find(alloc, name, cells),
            _ => Err(Declined),
        }
    }
}

// The DFA of the text, if it can be made.
fn made(alloc: Global, text: &Txt) -> Sieve {
    let Ok(text) = std::str::from_utf8(text.bytes()) else {
        return Sieve::Refused;
    };
    match LazyDfa::new(alloc, text) {
        Some(dfa) => Sieve::Made(dfa),
        None => Sieve::Refused,
    }
}

// Whether the program is one that `Pat::new` refuses for its states.
fn has_too_many_states(nfa: &Nfa) -> bool
    ensures { result ≡ nat_lt MAX_STATES (vec_len nfa.now.states) }
{
    nfa.states.len() > MAX_STATES
}

// The places of the first group and of the value.
fn places(cells: &[usize]) -> Option<((usize, usize), (usize, usize))>
    requires { 4 ≤ length cells.now }
    ensures { result ≡ places_in cells.now }
{
    let first = place_of(cells, 0)?;
    let value = place_of(cells, 2).unwrap_or(first);
    Some((first, value))
}
