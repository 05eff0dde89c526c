//! An event's parts, one after another.
ghost use Rattle.std.specs.Prelude.{◌≡◌, ◌≢◌, ◌<◌, ◌^◌, IfErr, OnOk, MatchResult};
ghost use Rattle.stat_defs.specs.Borrowed.{event_of};
ghost use Rattle.stat_defs.specs.Events.{IsLawfulEvent, IsReadout, IsOpenedPrefix};
ghost use Rattle.stat_defs.specs.Names.{IsLabel, IsLocalName};
ghost use Rattle.checked_events.specs.Parts.{Blames};
ghost use Rattle.checked_events.specs.declared.fault.EventFault.TheVariants as fault;

use crate::fault::EventFault;
use crate::rules::{label_fits, name_fits, prefix_fits, readout_fits};
use stat_defs::EventRef;

fn check_label(label: &[u8]) -> Result<(), EventFault>
    ensures { MatchResult result (λ _. IsLabel label.now) (λ f. (f ≡ fault.Label) × ¬ IsLabel label.now) }
{
    if label_fits(label) {
        Ok(())
    } else {
        Err(EventFault::Label)
    }
}

fn check_name(name: &[u8]) -> Result<(), EventFault>
    ensures { MatchResult result (λ _. IsLocalName name.now) (λ f. (f ≡ fault.Name) × ¬ IsLocalName name.now) }
{
    if name_fits(name) {
        Ok(())
    } else {
        Err(EventFault::Name)
    }
}

fn check_prefix(prefix: &[u8]) -> Result<(), EventFault>
    ensures { MatchResult result (λ _. IsOpenedPrefix prefix.now) (λ f. (f ≡ fault.Prefix) × ¬ IsOpenedPrefix prefix.now) }
{
    if prefix_fits(prefix) {
        Ok(())
    } else {
        Err(EventFault::Prefix)
    }
}

fn check_text(text: &[u8]) -> Result<(), EventFault>
    ensures { MatchResult result (λ _. IsReadout text.now) (λ f. (f ≡ fault.Text) × ¬ IsReadout text.now) }
{
    if readout_fits(text) {
        Ok(())
    } else {
        Err(EventFault::Text)
    }
}

fn check_amount(n: u64) -> Result<(), EventFault>
    ensures { MatchResult result (λ _. n < 2 ^ 63) (λ f. (f ≡ fault.Amount) × ¬ (n < 2 ^ 63)) }
{
    if n < 1 << 63 {
        Ok(())
    } else {
        Err(EventFault::Amount)
    }
}

// The same by value, so that the numbers of its parts have the bits of their types.
fn check_parts(event: EventRef<'_>) -> Result<(), EventFault>
    ensures lawful { OnOk result (IsLawfulEvent (event_of event.entry)) }
    ensures blames { IfErr result (λ fault. Blames (event_of event.entry) fault) }
    ensures no_memory { IfErr result (λ f. f ≢ fault.NoMemory) }
{
    match event {
        EventRef::Inc { label, name, .. } => {
            check_label(label)?;
            check_name(name)
        }
        EventRef::Rec { label, name, .. } => {
            check_label(label)?;
            check_name(name)
        }
        EventRef::Gauge { label, name, n, .. } => {
            check_label(label)?;
            check_name(name)?;
            check_amount(n)
        }
        EventRef::SetText { label, name, text } => {
            check_label(label)?;
            check_name(name)?;
            check_text(text)
        }
        EventRef::OpenScope { label, prefix } => {
            check_label(label)?;
            check_prefix(prefix)
        }
        EventRef::Release { label } => check_label(label),
    }
}

/// Whether an event is lawful; where it is not, its first part that is at fault, in the order label, name or prefix, and
/// text or number. It takes no memory.
pub fn check(event: &EventRef<'_>) -> Result<(), EventFault>
    ensures lawful { OnOk result (IsLawfulEvent (event_of event.now)) }
    ensures blames { IfErr result (λ fault. Blames (event_of event.now) fault) }
    ensures no_memory { IfErr result (λ f. f ≢ fault.NoMemory) }
{
    check_parts(*event)
}
