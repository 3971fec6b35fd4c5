use love_base::{Pacer, RealPacer, StepPacer};
use std::test::Fail;

#[test]
fn readings_grow_by_the_step(rt: HostRuntime) -> Result<(), Fail> {
    let pacer = StepPacer::new(500);
    pacer.pause();
    assert!(rt; pacer.now() == 0);
    assert!(rt; pacer.now() == 500);
    assert!(rt; pacer.now() == 1000);
    Ok(())
}

#[test]
fn readings_may_stand_still_or_stand_at_their_end(rt: HostRuntime) -> Result<(), Fail> {
    let still = StepPacer::new(0);
    assert!(rt; still.now() == 0);
    assert!(rt; still.now() == 0);
    let fast = StepPacer::new(u64::MAX);
    assert!(rt; fast.now() == 0);
    assert!(rt; fast.now() == u64::MAX);
    assert!(rt; fast.now() == u64::MAX);
    Ok(())
}

#[test]
fn the_real_clock_goes_on(rt: HostRuntime) -> Result<(), Fail> {
    let pacer = RealPacer::new(rt.clone()?);
    let first = pacer.now();
    pacer.pause();
    pacer.pause();
    assert!(rt; pacer.now() >= first.saturating_add(2));
    Ok(())
}
