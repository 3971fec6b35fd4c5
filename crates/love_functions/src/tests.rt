use crate::{Called, given};
use love_base::Memory;
use lua_heap::Heap;
use std::alloc::Global;
use std::test::Fail;
use variant::{Refusal, Reply};

// Whether a refusal gives this text.
fn refuses(alloc: Global, refusal: Refusal, text: &[u8]) -> Result<bool, Memory> {
    let mut heap = Heap::new(alloc)?;
    Ok(match given(alloc, &mut heap, &Reply::Refused(refusal))? {
        Called::Refuses(said) => said.as_slice() == text,
        _ => false,
    })
}

#[test]
fn a_refusal_has_its_text(rt: HostRuntime) -> Result<(), Fail> {
    let full = refuses(rt.alloc(), Refusal::Full, b"channel is full")?;
    assert!(rt; full);
    let running = refuses(
        rt.alloc(),
        Refusal::TooManyRunning(1),
        b"too many threads are running: 1",
    )?;
    assert!(rt; running);
    Ok(())
}
