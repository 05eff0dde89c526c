use ghost_list::GhostList;
use std::mem::size_of;
use std::test::Fail;

#[test]
fn no_memory(rt: HostRuntime) -> Result<(), Fail> {
    assert_eq!(rt; size_of::<GhostList<u64>>(), 0);
    Ok(())
}
