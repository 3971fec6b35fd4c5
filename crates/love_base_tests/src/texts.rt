use love_base::{Memory, Stamp, Text};
use std::alloc::Global;
use std::cmp::Ordering;
use std::test::Fail;

// Whether a text of these bytes, its copy and a text of their vector hold them.
fn keeps(alloc: Global, bytes: &[u8]) -> Result<bool, Memory> {
    let text = Text::of(alloc, bytes)?;
    let copy = text.copy(alloc)?;
    let vector = Text::from_vec(Vec::from_slice(alloc, bytes)?);
    Ok(text.bytes() == bytes && copy.bytes() == bytes && vector.bytes() == bytes)
}

#[test]
fn a_text_keeps_any_bytes(rt: HostRuntime) -> Result<(), Fail> {
    for bytes in [b"".as_slice(), b"a", b"two\0lines\n", b"\xff\x80"] {
        assert!(rt; keeps(rt.alloc(), bytes)?, "{bytes:?}");
    }
    Ok(())
}

// Whether these texts are in this order, and the other way round in the reverse one.
fn compare_so(alloc: Global, left: &[u8], right: &[u8], order: Ordering) -> Result<bool, Memory> {
    let left = Text::of(alloc, left)?;
    let right = Text::of(alloc, right)?;
    Ok(
        left.cmp(&right) == order
            && right.cmp(&left) == order.reverse()
            && left.partial_cmp(&right) == Some(order)
            && (left == right) == (order == Ordering::Equal),
    )
}

// The least of three, by the order of their type alone.
fn least<T: Ord + Drop>(first: T, second: T, third: T) -> T {
    first.min(second).min(third)
}

#[test]
fn texts_are_in_byte_order(rt: HostRuntime) -> Result<(), Fail> {
    let rows = [
        (b"".as_slice(), b"".as_slice(), Ordering::Equal),
        (b"", b"a", Ordering::Less),
        (b"a", b"a\0", Ordering::Less),
        (b"ab", b"b", Ordering::Less),
        (b"a/b", b"a.b", Ordering::Greater),
        (b"Z", b"a", Ordering::Less),
        (b"\x7f", b"\x80", Ordering::Less),
        (b"main.lua", b"main.lua", Ordering::Equal),
    ];
    for (left, right, order) in rows {
        assert!(rt;
            compare_so(rt.alloc(), left, right, order)?,
            "{left:?} and {right:?}"
        );
    }
    Ok(())
}

#[test]
fn texts_are_ordered_by_their_type(rt: HostRuntime) -> Result<(), Fail> {
    let (first, second) = (Text::of(rt.alloc(), b"b")?, Text::of(rt.alloc(), b"ab")?);
    let third = Text::of(rt.alloc(), b"abc")?;
    assert!(rt; least(first, second, third).bytes() == b"ab".as_slice());
    Ok(())
}

#[test]
fn stamps_are_told_apart(rt: HostRuntime) {
    let stamp = Stamp {
        state: 0,
        number: 1,
    };
    for (state, number, same) in [(0, 1, true), (1, 1, false), (0, 2, false)] {
        assert!(rt;
            (stamp == Stamp { state, number }) == same,
            "{state}, {number}"
        );
    }
    assert!(rt; Memory == Memory);
}
