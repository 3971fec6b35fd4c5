use crate::Bell;
use std::test::Fail;

#[test]
fn a_bell_counts_its_rings(rt: HostRuntime) -> Result<(), Fail> {
    let bell = Bell::new();
    bell.ring(&rt);
    bell.ring(&rt);
    bell.wait_past(&rt, 1);
    assert!(rt; bell.number(&rt) == 2);
    Ok(())
}
