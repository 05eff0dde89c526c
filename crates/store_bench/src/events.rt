//! The events that are measured.
ghost use Rattle.std.specs.Prelude.{IsTrue, ◌≡◌, IfSome};
ghost use Rattle.std.specs.List.{list_all};
ghost use Rattle.stat_defs.specs.Borrowed.{event_of};
ghost use Rattle.stat_defs.specs.Events.{IsLawfulEvent};
ghost use Rattle.stat_defs.specs.Names.{IsLocalName};
ghost use Rattle.stat_defs.specs.Names as names;

use stat_defs::{EventRef, GaugeOp, MAX_NAME_BYTES, Mode, is_name_byte};

/// A call of a recorder: a hit of a counter, of a gauge or of a warm histogram, a poll, or what a worker does for an
/// event, which is a poll and a hit of a counter.
#[derive(Clone, Copy)]
pub(crate) enum Call {
    Counter,
    Gauge,
    Histogram,
    Poll,
    Work,
}

fn has_name_bytes(name: &[u8]) -> bool
    ensures { result ≡ list_all names.is_name_byte name.now }
{
    name.iter().all(|b| is_name_byte(*b))
}

fn is_local_name(name: &[u8]) -> bool
    ensures { IsTrue result → IsLocalName name.now }
{
    if name.is_empty() || name.len() > MAX_NAME_BYTES {
        return false;
    }
    has_name_bytes(name)
}

/// The event of a call on the metric of this name, where there may be one.
pub(crate) fn event(call: Call, name: &[u8], n: u32) -> Option<EventRef<'_>>
    ensures { IfSome result (λ event. IsLawfulEvent (event_of event)) }
{
    if !is_local_name(name) {
        return None;
    }
    let label = b"root".as_slice();
    Some(match call {
        Call::Gauge => EventRef::Gauge {
            label,
            name,
            mode: Mode::Accumulate,
            op: GaugeOp::Add,
            n: u64::from(n),
        },
        Call::Histogram => EventRef::Rec {
            label,
            name,
            v: u64::from(n),
        },
        Call::Counter | Call::Poll | Call::Work => EventRef::Inc { label, name, n },
    })
}
