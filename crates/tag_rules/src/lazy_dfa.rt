//! The DFA of a pattern, whose states are made as names need them.
ghost use Rattle.std.specs.Prelude.{◌≡◌, None, IfOk, IfSome, OnOk, IsTrue, length, option_map};
ghost use Rattle.regex_vm.specs.Found.{span, group_cells};
ghost use Rattle.tag_rules.specs.Patterns.{leftmost};

use crate::machine::is_cut;
use crate::pat::MAX_TABLE_BYTES;
use regex_dfa::{Dfa, End, Forward};
use regex_syntax::Config;
use regex_tagged::{Near, Tagged};
use regex_vm::Declined;
use stat_defs::Txt;
use std::alloc::Global;
use std::marker::Model;

/// Maximum number of bytes of the states that a DFA keeps; it forgets them where it needs more.
const MAX_DFA_BYTES: usize = 1_048_576;

/// The DFA that has the groups too forgets its states where making them took longer than this, as `regex_dfa::Work`
/// counts: about 4 ms.
const MAX_BUILT: u64 = 1 << 25;

/// A DFA that reads each byte of a name a few times at most, and keeps the states that it has made for the names to
/// come. `forward` tells whether there is a match, and `tagged` then finds it with its groups. Contracts see it as the
/// text of its pattern.
pub(crate) struct LazyDfa {
    text: Txt,
    dfa: Dfa,
    forward: Forward,
    tagged: Tagged,
}

// Written out, so that a caller's proof sees one call and not the drop of each field.
impl Drop for LazyDfa {
    fn drop(self) {
        let LazyDfa {
            text: _text,
            dfa: _dfa,
            forward: _forward,
            tagged: _tagged,
        } = self;
    }
}

impl Model for LazyDfa {
    ghost use Rattle.std.specs.Prelude.{ℕ, List};
    ghost use Rattle.regex_dfa.specs.Search.{IsForwardFor};
    ghost use Rattle.regex_tagged.specs.Valid.{IsFor};
    ghost use Rattle.tag_rules.specs.Machines.{Runs};

    ghost Value = { List ℕ };

    ghost view = { λ d. d.text };

    ghost invariant = { λ d. Runs d.dfa.nfa d.text × IsForwardFor d.forward d.dfa × IsFor d.tagged d.dfa };
}

impl LazyDfa {
    /// Compiles the text. `None` where it is too big or there is no memory.
    pub(crate) fn new(alloc: Global, text: &str) -> Option<LazyDfa>
        ensures { IfSome result (λ dfa. dfa ≡ text.now) }
    {
        let Ok(parsed) = regex_syntax::parse(alloc, text, &Config::default()) else {
            return None;
        };
        let groups = u32::try_from(parsed.names.len()).ok()?;
        let Ok(nfa) = regex_compile::compile(alloc, &parsed.hir, groups, MAX_TABLE_BYTES) else {
            return None;
        };
        let Ok(dfa) = Dfa::new(alloc, nfa) else {
            return None;
        };
        let Ok(forward) = Forward::with_budget(alloc, &dfa, false, MAX_DFA_BYTES) else {
            return None;
        };
        let Ok(tagged) = Tagged::new(alloc, &dfa) else {
            return None;
        };
        let text = Txt::of(alloc, text.as_bytes()).ok()?;
        Some(LazyDfa {
            text,
            dfa,
            forward,
            tagged,
        })
    }

    /// Whether it is the DFA of this text.
    pub(crate) fn is_of(&self, text: &Txt) -> bool
        ensures { IsTrue result → self.now ≡ text.now }
    {
        self.text == *text
    }

    /// The span of the leftmost match, with the cells of its groups. It may give up, and the cells are then any.
    pub(crate) fn find(
        &mut self,
        alloc: Global,
        name: &str,
        cells: &mut [usize],
    ) -> Result<Option<(usize, usize)>, Declined>
        ensures span { IfOk result (λ found. found ≡ option_map span (leftmost self.old name.now)) }
        ensures cells { OnOk result (IfSome (leftmost self.old name.now)
            (λ m. cells.new ≡ group_cells m (length cells.old))) }
        ensures same { self.new ≡ self.old }
    {
        if self.rules_out(name) {
            return Ok(None);
        }
        self.trim(alloc);
        self.matched(name, cells)
    }

    // Whether the pattern is not found in the name. Where the DFA gives up, it may be so all the same.
    fn rules_out(&mut self, name: &str) -> bool
        ensures none { IsTrue result → leftmost self.old name.now ≡ None }
        ensures same { self.new ≡ self.old }
    {
        let hay = name.as_bytes();
        let end = hay.len();
        let found = self
            .forward
            .find_end_within(&self.dfa, hay, 0, end, end, true);
        let End::NoMatch = found else {
            return false;
        };
        true
    }

    // Forgets the states that have the groups where they took long to make.
    fn trim(&mut self, alloc: Global)
        ensures { self.new ≡ self.old }
    {
        if self.tagged.work().built <= MAX_BUILT {
            return;
        }
        if let Ok(fresh) = Tagged::new(alloc, &self.dfa) {
            self.tagged = fresh;
        }
    }

    // The span of the leftmost match, with the cells of its groups, where the DFA that has both finds a match.
    fn matched(
        &mut self,
        name: &str,
        cells: &mut [usize],
    ) -> Result<Option<(usize, usize)>, Declined>
        ensures span { IfOk result (λ found. found ≡ option_map span (leftmost self.old name.now)) }
        ensures cells { OnOk result (IfSome (leftmost self.old name.now)
            (λ m. cells.new ≡ group_cells m (length cells.old))) }
        ensures same { self.new ≡ self.old }
    {
        let hay = name.as_bytes();
        let near = self.tagged.find_near(&self.dfa, hay, 0, hay.len(), cells)?;
        let Near::Done(found) = near else {
            return Err(Declined);
        };
        let Some(found) = found else {
            return Err(Declined);
        };
        if is_cut(hay, found.0) {
            return Ok(Some(found));
        }
        Err(Declined)
    }
}
