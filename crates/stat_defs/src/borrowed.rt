//! Events whose texts are borrowed.
ghost use Rattle.std.specs.Prelude.{◌≡◌, IfOk};
ghost use Rattle.stat_defs.specs.Borrowed.{event_of};

use crate::events::{Event, GaugeOp};
use crate::ids::Mode;
use crate::memory::NoMemory;
use crate::text::Txt;
use std::alloc::Global;

/// An [`Event`] whose texts are borrowed, as from the bytes of its line. Contracts tell it as the event that it stands
/// for.
#[derive(Clone, Copy, Debug)]
pub enum EventRef<'a> {
    Inc {
        label: &'a [u8],
        name: &'a [u8],
        n: u32,
    },
    Gauge {
        label: &'a [u8],
        name: &'a [u8],
        mode: Mode,
        op: GaugeOp,
        n: u64,
    },
    Rec {
        label: &'a [u8],
        name: &'a [u8],
        v: u64,
    },
    SetText {
        label: &'a [u8],
        name: &'a [u8],
        text: &'a [u8],
    },
    OpenScope {
        label: &'a [u8],
        prefix: &'a [u8],
    },
    Release {
        label: &'a [u8],
    },
}

impl Event {
    /// The same event, its texts borrowed.
    #[inline(always)]
    pub fn borrowed(&self) -> EventRef<'_>
        ensures { event_of result ≡ self.now }
    {
        match self {
            Event::Inc { label, name, n } => EventRef::Inc {
                label: label.bytes(),
                name: name.bytes(),
                n: *n,
            },
            Event::Gauge {
                label,
                name,
                mode,
                op,
                n,
            } => EventRef::Gauge {
                label: label.bytes(),
                name: name.bytes(),
                mode: *mode,
                op: *op,
                n: *n,
            },
            Event::Rec { label, name, v } => EventRef::Rec {
                label: label.bytes(),
                name: name.bytes(),
                v: *v,
            },
            Event::SetText { label, name, text } => EventRef::SetText {
                label: label.bytes(),
                name: name.bytes(),
                text: text.bytes(),
            },
            Event::OpenScope { label, prefix } => EventRef::OpenScope {
                label: label.bytes(),
                prefix: prefix.bytes(),
            },
            Event::Release { label } => EventRef::Release {
                label: label.bytes(),
            },
        }
    }
}

impl EventRef<'_> {
    /// The same event with texts of its own.
    pub fn to_event(&self, alloc: Global) -> Result<Event, NoMemory>
        ensures { IfOk result (λ event. event ≡ event_of self.now) }
    {
        Ok(match *self {
            EventRef::Inc { label, name, n } => Event::Inc {
                label: Txt::of(alloc, label)?,
                name: Txt::of(alloc, name)?,
                n,
            },
            EventRef::Gauge {
                label,
                name,
                mode,
                op,
                n,
            } => Event::Gauge {
                label: Txt::of(alloc, label)?,
                name: Txt::of(alloc, name)?,
                mode,
                op,
                n,
            },
            EventRef::Rec { label, name, v } => Event::Rec {
                label: Txt::of(alloc, label)?,
                name: Txt::of(alloc, name)?,
                v,
            },
            EventRef::SetText { label, name, text } => Event::SetText {
                label: Txt::of(alloc, label)?,
                name: Txt::of(alloc, name)?,
                text: Txt::of(alloc, text)?,
            },
            EventRef::OpenScope { label, prefix } => Event::OpenScope {
                label: Txt::of(alloc, label)?,
                prefix: Txt::of(alloc, prefix)?,
            },
            EventRef::Release { label } => Event::Release {
                label: Txt::of(alloc, label)?,
            },
        })
    }
}
