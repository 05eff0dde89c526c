//! Events that are made of checked parts.
ghost use Rattle.std.specs.Prelude.{◌≡◌, IfOk, IfErr};
ghost use Rattle.stat_defs.specs.Borrowed.{event_of};
ghost use Rattle.stat_defs.specs.Events.{IsLawfulEvent};
ghost use Rattle.stat_defs.specs.declared.events.Event.TheVariants as event;
ghost use Rattle.stat_defs.specs.declared.events.GaugeOp.TheVariants as op;
ghost use Rattle.checked_events.specs.Parts.{Blames};

use crate::fault::EventFault;
use crate::parts::check;
use stat_defs::{Event, EventRef, GaugeOp, Mode};
use std::alloc::Global;

// The event of these parts.
fn made_of(alloc: Global, parts: &EventRef<'_>) -> Result<Event, EventFault>
    ensures made { IfOk result (λ made. made ≡ event_of parts.now) }
    ensures lawful { IfOk result (λ made. IsLawfulEvent made) }
    ensures refused { IfErr result (λ fault. Blames (event_of parts.now) fault) }
{
    check(parts)?;
    Ok(parts.to_event(alloc)?)
}

/// Adds `n` units to a counter.
pub fn inc(alloc: Global, label: &str, name: &str, n: u32) -> Result<Event, EventFault>
    ensures made { IfOk result (λ made. made ≡ event.Inc label.now name.now n) }
    ensures lawful { IfOk result (λ made. IsLawfulEvent made) }
    ensures refused { IfErr result (λ fault. Blames (event.Inc label.now name.now n) fault) }
{
    made_of(
        alloc,
        &EventRef::Inc {
            label: label.as_bytes(),
            name: name.as_bytes(),
            n,
        },
    )
}

/// Adds `n`, which is below 2^63, to a gauge.
pub fn gauge_add(
    alloc: Global,
    label: &str,
    name: &str,
    mode: Mode,
    n: u64,
) -> Result<Event, EventFault>
    ensures made { IfOk result (λ made. made ≡ event.Gauge label.now name.now mode op.Add n) }
    ensures lawful { IfOk result (λ made. IsLawfulEvent made) }
    ensures refused { IfErr result (λ fault. Blames (event.Gauge label.now name.now mode op.Add n) fault) }
{
    made_of(
        alloc,
        &EventRef::Gauge {
            label: label.as_bytes(),
            name: name.as_bytes(),
            mode,
            op: GaugeOp::Add,
            n,
        },
    )
}

/// Takes `n`, which is below 2^63, from a gauge.
pub fn gauge_sub(
    alloc: Global,
    label: &str,
    name: &str,
    mode: Mode,
    n: u64,
) -> Result<Event, EventFault>
    ensures made { IfOk result (λ made. made ≡ event.Gauge label.now name.now mode op.Sub n) }
    ensures lawful { IfOk result (λ made. IsLawfulEvent made) }
    ensures refused { IfErr result (λ fault. Blames (event.Gauge label.now name.now mode op.Sub n) fault) }
{
    made_of(
        alloc,
        &EventRef::Gauge {
            label: label.as_bytes(),
            name: name.as_bytes(),
            mode,
            op: GaugeOp::Sub,
            n,
        },
    )
}

/// Sets a gauge to `n`, which is below 2^63.
pub fn gauge_set(
    alloc: Global,
    label: &str,
    name: &str,
    mode: Mode,
    n: u64,
) -> Result<Event, EventFault>
    ensures made { IfOk result (λ made. made ≡ event.Gauge label.now name.now mode op.Set n) }
    ensures lawful { IfOk result (λ made. IsLawfulEvent made) }
    ensures refused { IfErr result (λ fault. Blames (event.Gauge label.now name.now mode op.Set n) fault) }
{
    made_of(
        alloc,
        &EventRef::Gauge {
            label: label.as_bytes(),
            name: name.as_bytes(),
            mode,
            op: GaugeOp::Set,
            n,
        },
    )
}

/// Records the value `v` in a histogram.
pub fn rec(alloc: Global, label: &str, name: &str, v: u64) -> Result<Event, EventFault>
    ensures made { IfOk result (λ made. made ≡ event.Rec label.now name.now v) }
    ensures lawful { IfOk result (λ made. IsLawfulEvent made) }
    ensures refused { IfErr result (λ fault. Blames (event.Rec label.now name.now v) fault) }
{
    made_of(
        alloc,
        &EventRef::Rec {
            label: label.as_bytes(),
            name: name.as_bytes(),
            v,
        },
    )
}

/// Sets a text readout.
pub fn set_text(alloc: Global, label: &str, name: &str, text: &str) -> Result<Event, EventFault>
    ensures made { IfOk result (λ made. made ≡ event.SetText label.now name.now text.now) }
    ensures lawful { IfOk result (λ made. IsLawfulEvent made) }
    ensures refused { IfErr result (λ fault. Blames (event.SetText label.now name.now text.now) fault) }
{
    made_of(
        alloc,
        &EventRef::SetText {
            label: label.as_bytes(),
            name: name.as_bytes(),
            text: text.as_bytes(),
        },
    )
}

/// Opens a scope. The prefix stands as it is, without the final dot that a line would have.
pub fn open_scope(alloc: Global, label: &str, prefix: &str) -> Result<Event, EventFault>
    ensures made { IfOk result (λ made. made ≡ event.OpenScope label.now prefix.now) }
    ensures lawful { IfOk result (λ made. IsLawfulEvent made) }
    ensures refused { IfErr result (λ fault. Blames (event.OpenScope label.now prefix.now) fault) }
{
    made_of(
        alloc,
        &EventRef::OpenScope {
            label: label.as_bytes(),
            prefix: prefix.as_bytes(),
        },
    )
}

/// Releases a scope.
pub fn release(alloc: Global, label: &str) -> Result<Event, EventFault>
    ensures made { IfOk result (λ made. made ≡ event.Release label.now) }
    ensures lawful { IfOk result (λ made. IsLawfulEvent made) }
    ensures refused { IfErr result (λ fault. Blames (event.Release label.now) fault) }
{
    made_of(
        alloc,
        &EventRef::Release {
            label: label.as_bytes(),
        },
    )
}
