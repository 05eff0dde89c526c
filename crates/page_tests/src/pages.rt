//! Faults of a store with pages.

use boot_values::BootFault;
use std::test::Fail;
use store_pages::{ApplyFault, PageFault};
use tag_rules::TagFault;

#[test]
fn faults_say_what_came(rt: HostRuntime) -> Result<(), Fail> {
    let text = format!(in rt.alloc(); "{}; {}", ApplyFault::Full, PageFault::CutShort)?;
    assert_eq!(rt;
        text.as_str(),
        "the store has taken all events that it takes; an earlier page was cut short"
    );
    Ok(())
}

#[test]
fn faults_of_a_bootstrap_say_what_came(rt: HostRuntime) -> Result<(), Fail> {
    let text = format!(in rt.alloc();
        "{}; {}; {}",
        BootFault::NotJson,
        BootFault::BadTag(2),
        TagFault::BadPattern(3)
    )?;
    assert_eq!(rt;
        text.as_str(),
        "not json; bad tag; the pattern of member 3 was refused"
    );
    Ok(())
}
