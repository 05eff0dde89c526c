//! The event of a line, read from its front to its end.
ghost use Rattle.std.specs.Prelude.{◌≡◌, MatchOption};
ghost use Rattle.stat_defs.specs.Borrowed.{event_of};
ghost use Rattle.event_script.specs.EventIn.{inc_in, gauge_in, rec_in, readout_in, open_in, release_in, event_in};
ghost use Rattle.event_script.specs.Grammar as grammar;
ghost use Rattle.event_script.specs.FirstLine.{HasLine, LacksLine};

use crate::numbers::number_last;
use crate::parts::{
    label_first, label_last, metric_first, mode_first, name_last, text_last, word_first,
};
use crate::words::Word;
use stat_defs::{EventRef, GaugeOp, without_dot};

// A gauge's number is below 2^63.
const MAX_GAUGE: u64 = 9_223_372_036_854_775_807;

#[inline(always)]
fn inc_event(text: &[u8]) -> Option<(EventRef<'_>, &[u8])>
    ensures { MatchOption result (LacksLine inc_in text.now) (λ p. HasLine inc_in text.now (event_of p.0) p.1.now) }
{
    let Some((label, name, rest)) = metric_first(text) else {
        return None;
    };
    let Some((n, after)) = number_last(rest, u64::from(u32::MAX)) else {
        return None;
    };
    let n = n as u32;
    Some((EventRef::Inc { label, name, n }, after))
}

#[inline(always)]
fn gauge_event(op: GaugeOp, text: &[u8]) -> Option<(EventRef<'_>, &[u8])>
    ensures { MatchOption result (LacksLine (gauge_in op) text.now)
        (λ p. HasLine (gauge_in op) text.now (event_of p.0) p.1.now) }
{
    let Some((label, name, rest)) = metric_first(text) else {
        return None;
    };
    let Some((mode, rest)) = mode_first(rest) else {
        return None;
    };
    let Some((n, after)) = number_last(rest, MAX_GAUGE) else {
        return None;
    };
    Some((
        EventRef::Gauge {
            label,
            name,
            mode,
            op,
            n,
        },
        after,
    ))
}

#[inline(always)]
fn rec_event(text: &[u8]) -> Option<(EventRef<'_>, &[u8])>
    ensures { MatchOption result (LacksLine rec_in text.now) (λ p. HasLine rec_in text.now (event_of p.0) p.1.now) }
{
    let Some((label, name, rest)) = metric_first(text) else {
        return None;
    };
    let Some((v, after)) = number_last(rest, u64::MAX) else {
        return None;
    };
    Some((EventRef::Rec { label, name, v }, after))
}

#[inline(always)]
fn text_event(text: &[u8]) -> Option<(EventRef<'_>, &[u8])>
    ensures { MatchOption result (LacksLine readout_in text.now)
        (λ p. HasLine readout_in text.now (event_of p.0) p.1.now) }
{
    let Some((label, name, rest)) = metric_first(text) else {
        return None;
    };
    let Some((text, after)) = text_last(rest) else {
        return None;
    };
    Some((EventRef::SetText { label, name, text }, after))
}

// The prefix that an `open` line gives.
fn given_prefix(given: &[u8]) -> &[u8]
    ensures { result.now ≡ grammar.given_prefix given.now }
{
    let prefix = without_dot(given);
    if prefix == b"-".as_slice() {
        &given[..0]
    } else {
        prefix
    }
}

#[inline(always)]
fn open_event(text: &[u8]) -> Option<(EventRef<'_>, &[u8])>
    ensures { MatchOption result (LacksLine open_in text.now) (λ p. HasLine open_in text.now (event_of p.0) p.1.now) }
{
    let Some((label, rest)) = label_first(text) else {
        return None;
    };
    let Some((given, after)) = name_last(rest) else {
        return None;
    };
    let prefix = given_prefix(given);
    Some((EventRef::OpenScope { label, prefix }, after))
}

#[inline(always)]
fn release_event(text: &[u8]) -> Option<(EventRef<'_>, &[u8])>
    ensures { MatchOption result (LacksLine release_in text.now)
        (λ p. HasLine release_in text.now (event_of p.0) p.1.now) }
{
    let Some((label, after)) = label_last(text) else {
        return None;
    };
    Some((EventRef::Release { label }, after))
}

/// The event of the first line, and what stands behind that line: nothing, or a newline first.
#[inline(always)]
pub fn event_first(text: &[u8]) -> Option<(EventRef<'_>, &[u8])>
    ensures { MatchOption result (LacksLine event_in text.now) (λ p. HasLine event_in text.now (event_of p.0) p.1.now) }
{
    let Some((word, rest)) = word_first(text) else {
        return None;
    };
    match word {
        Word::Inc => inc_event(rest),
        Word::Add => gauge_event(GaugeOp::Add, rest),
        Word::Sub => gauge_event(GaugeOp::Sub, rest),
        Word::Set => gauge_event(GaugeOp::Set, rest),
        Word::Rec => rec_event(rest),
        Word::Text => text_event(rest),
        Word::Open => open_event(rest),
        Word::Release => release_event(rest),
    }
}
