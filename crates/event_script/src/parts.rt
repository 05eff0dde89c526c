//! The parts of a line.
ghost use Rattle.std.specs.Prelude.{◌≡◌, ◌≢◌, ◌≤◌, ◌++◌, ◌∷◌, ℕ, List, MatchOption, length};
ghost use Rattle.event_script.specs.FirstLine.{IsPart, IsNoPart, IsLast, IsNoLast};
ghost use Rattle.event_script.specs.EventIn.{read_word, read_mode, read_label, read_name, read_readout};
ghost use Rattle.event_script.specs.FirstLine.{HasPart, LacksPart, HasMetric, LacksMetric, HasLine, LacksLine};

use crate::fronts::{label_length, name_length, text_length};
use crate::numbers::is_end;
use crate::words::Word;
use stat_defs::{MAX_LABEL_BYTES, MAX_NAME_BYTES, Mode};

// What stands behind those bytes, where they stand first.
#[inline(always)]
fn behind<'a>(text: &'a [u8], front: &[u8]) -> Option<&'a [u8]>
    ensures { MatchOption result ((rest : List ℕ) → text.now ≢ front.now ++ rest)
        (λ rest. text.now ≡ front.now ++ rest.now) }
{
    text.strip_prefix(front)
}

// The same of 4 bytes, which are compared as one number.
#[inline(always)]
fn behind_four<'a>(text: &'a [u8], front: &[u8; 4]) -> Option<&'a [u8]>
    ensures { MatchOption result ((rest : List ℕ) → text.now ≢ front.now ++ rest)
        (λ rest. text.now ≡ front.now ++ rest.now) }
{
    let Some(first) = text.first_chunk::<4>() else {
        return None;
    };
    if u32::from_le_bytes(*first) != u32::from_le_bytes(*front) {
        return None;
    }
    Some(&text[4..])
}

// The word that a space ends, and what stands behind that.
#[inline(always)]
pub fn word_first(text: &[u8]) -> Option<(Word, &[u8])>
    ensures { MatchOption result (LacksPart read_word text.now) (λ p. HasPart read_word text.now p.0 p.1.now) }
{
    if let Some(rest) = behind_four(text, b"inc ") {
        return Some((Word::Inc, rest));
    }
    if let Some(rest) = behind_four(text, b"add ") {
        return Some((Word::Add, rest));
    }
    if let Some(rest) = behind_four(text, b"sub ") {
        return Some((Word::Sub, rest));
    }
    if let Some(rest) = behind_four(text, b"set ") {
        return Some((Word::Set, rest));
    }
    if let Some(rest) = behind_four(text, b"rec ") {
        return Some((Word::Rec, rest));
    }
    if let Some(rest) = behind(text, b"text ") {
        return Some((Word::Text, rest));
    }
    if let Some(rest) = behind(text, b"open ") {
        return Some((Word::Open, rest));
    }
    if let Some(rest) = behind(text, b"release ") {
        return Some((Word::Release, rest));
    }
    None
}

// The mode that a space ends, and what stands behind that.
#[inline(always)]
pub fn mode_first(text: &[u8]) -> Option<(Mode, &[u8])>
    ensures { MatchOption result (LacksPart read_mode text.now) (λ p. HasPart read_mode text.now p.0 p.1.now) }
{
    if let Some(rest) = behind(text, b"uninit ") {
        return Some((Mode::Uninit, rest));
    }
    if let Some(rest) = behind_four(text, b"acc ") {
        return Some((Mode::Accumulate, rest));
    }
    if let Some(rest) = behind(text, b"never ") {
        return Some((Mode::Never, rest));
    }
    None
}

// The bytes before a space at that place, if there is one and they are 1 to so many, and those behind it.
#[inline(always)]
fn split_at_space(text: &[u8], at: usize, most: usize) -> Option<(&[u8], &[u8])>
    requires { at ≤ length text.now }
    ensures { MatchOption result (IsNoPart text.now at most)
        (λ parts. IsPart text.now at most parts.0.now parts.1.now) }
{
    if at == 0 || at > most {
        return None;
    }
    if at == text.len() || text[at] != b' ' {
        return None;
    }
    Some((&text[..at], &text[at + 1..]))
}

// The label that a space ends, and what stands behind that.
#[inline(always)]
pub fn label_first(text: &[u8]) -> Option<(&[u8], &[u8])>
    ensures { MatchOption result (LacksPart read_label text.now) (λ p. HasPart read_label text.now p.0.now p.1.now) }
{
    split_at_space(text, label_length(text), MAX_LABEL_BYTES)
}

// The local name that a space ends, and what stands behind that.
#[inline(always)]
fn name_first(text: &[u8]) -> Option<(&[u8], &[u8])>
    ensures { MatchOption result (LacksPart read_name text.now) (λ p. HasPart read_name text.now p.0.now p.1.now) }
{
    split_at_space(text, name_length(text), MAX_NAME_BYTES)
}

// A label and a local name, and what stands behind the space that ends that.
#[inline(always)]
pub fn metric_first(text: &[u8]) -> Option<(&[u8], &[u8], &[u8])>
    ensures { MatchOption result (LacksMetric text.now) (λ p. HasMetric text.now p.0.now p.1.now p.2.now) }
{
    let Some((label, rest)) = label_first(text) else {
        return None;
    };
    let Some((name, rest)) = name_first(rest) else {
        return None;
    };
    Some((label, name, rest))
}

// The bytes before that place, if a line ends there and they are 1 to so many, and what stands behind them.
fn split_at_end(text: &[u8], at: usize, most: usize) -> Option<(&[u8], &[u8])>
    requires { at ≤ length text.now }
    ensures { MatchOption result (IsNoLast text.now at most)
        (λ parts. IsLast text.now at most parts.0.now parts.1.now) }
{
    if at == 0 || at > most {
        return None;
    }
    let after = &text[at..];
    if !is_end(after) {
        return None;
    }
    Some((&text[..at], after))
}

// The label that the first line is, and what stands behind it.
pub fn label_last(text: &[u8]) -> Option<(&[u8], &[u8])>
    ensures { MatchOption result (LacksLine read_label text.now) (λ p. HasLine read_label text.now p.0.now p.1.now) }
{
    split_at_end(text, label_length(text), MAX_LABEL_BYTES)
}

// The bytes of a name that the first line is, and what stands behind it.
pub fn name_last(text: &[u8]) -> Option<(&[u8], &[u8])>
    ensures { MatchOption result (LacksLine read_name text.now) (λ p. HasLine read_name text.now p.0.now p.1.now) }
{
    split_at_end(text, name_length(text), MAX_NAME_BYTES)
}

// The text of a readout that the first line is, and what stands behind it.
pub fn text_last(text: &[u8]) -> Option<(&[u8], &[u8])>
    ensures { MatchOption result (LacksLine read_readout text.now)
        (λ p. HasLine read_readout text.now p.0.now p.1.now) }
{
    let count = text_length(text);
    let after = &text[count..];
    if !is_end(after) {
        return None;
    }
    Some((&text[..count], after))
}
