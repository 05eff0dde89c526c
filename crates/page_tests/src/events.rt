//! Events of checked parts.

use checked_events::{
    EventFault, gauge_add, gauge_set, gauge_sub, inc, is_label, is_local_name, is_prefix,
    is_readout, open_scope, rec, release, set_text,
};
use stat_defs::{Event, Mode};
use std::test::Fail;

// The part at fault, where there is one.
fn fault_of(made: Result<Event, EventFault>) -> Option<EventFault> {
    match made {
        Ok(_event) => None,
        Err(fault) => Some(fault),
    }
}

#[test]
fn the_first_part_at_fault_is_told(rt: HostRuntime) -> Result<(), Fail> {
    let fault = fault_of(inc(rt.alloc(), "", "a b", 1));
    assert!(rt; fault == Some(EventFault::Label));
    Ok(())
}

#[test]
fn a_number_at_fault_is_told(rt: HostRuntime) -> Result<(), Fail> {
    let fault = fault_of(gauge_add(rt.alloc(), "a", "b", Mode::Never, 1 << 63));
    assert!(rt; fault == Some(EventFault::Amount));
    Ok(())
}

#[test]
fn a_prefix_at_fault_is_told(rt: HostRuntime) -> Result<(), Fail> {
    let fault = fault_of(open_scope(rt.alloc(), "a", "-"));
    assert!(rt; fault == Some(EventFault::Prefix));
    Ok(())
}

#[test]
fn lawful_parts_make_an_event(rt: HostRuntime) -> Result<(), Fail> {
    let alloc = rt.alloc();
    assert!(rt; gauge_sub(alloc, "a_1", "b.c", Mode::Uninit, 1).is_ok());
    assert!(rt; set_text(alloc, "root", "version", "1.2 of 3").is_ok());
    assert!(rt; open_scope(alloc, "a", "").is_ok());
    assert!(rt; gauge_set(alloc, "a", "b", Mode::Accumulate, 7).is_ok());
    assert!(rt; rec(alloc, "a", "b", u64::MAX).is_ok());
    assert!(rt; release(alloc, "root").is_ok());
    Ok(())
}

#[test]
fn each_maker_tells_its_part(rt: HostRuntime) -> Result<(), Fail> {
    let alloc = rt.alloc();
    let set = fault_of(gauge_set(alloc, "a", "b c", Mode::Never, 1));
    assert!(rt; set == Some(EventFault::Name));
    assert!(rt; fault_of(rec(alloc, "a", "", 1)) == Some(EventFault::Name));
    assert!(rt; fault_of(release(alloc, "a b")) == Some(EventFault::Label));
    Ok(())
}

#[test]
fn rules_decide_whole_texts(rt: HostRuntime) -> Result<(), Fail> {
    assert!(rt; is_label("east_1") && !is_label("") && !is_label("east.1"));
    assert!(rt; is_local_name("rq.total") && !is_local_name("rq total"));
    assert!(rt; is_prefix("") && is_prefix("http.") && !is_prefix("-"));
    assert!(rt; is_readout("") && is_readout("two words") && !is_readout("\t"));
    Ok(())
}

#[test]
fn faults_say_what_is_asked(rt: HostRuntime) -> Result<(), Fail> {
    let text = format!(in rt.alloc(); "{}; {}", EventFault::Label, EventFault::Amount)?;
    assert_eq!(rt;
        text.as_str(),
        "a label has 1 to 32 letters, digits and low lines; a gauge's number is below 2^63"
    );
    Ok(())
}
