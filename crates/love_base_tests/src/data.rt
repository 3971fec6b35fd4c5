use love_base::{Data, Memory, Text};
use std::alloc::Global;
use std::test::Fail;
use std::thread;

fn is_send_and_sync<T: Send + Sync + Drop>(_value: T) {}

// Five bytes of a file.
fn five(alloc: Global) -> Result<Data, Memory> {
    let name = Text::from_vec(Vec::from_slice(alloc, b"map.bin")?);
    Data::new(alloc, b"abcde", Some(name))
}

// Whether Data reads as these bytes, under this name.
fn reads(data: &Data, bytes: &[u8], name: Option<&[u8]>) -> bool {
    let named = match (data.name(), name) {
        (Some(found), Some(name)) => found.bytes() == name,
        (found, name) => found.is_none() && name.is_none(),
    };
    named && data.size() == bytes.len() && data.bytes() == bytes
}

// Whether the view of so many bytes from there on is this part, which has no name, or is none.
fn views(data: &Data, offset: usize, size: usize, part: Option<&[u8]>) -> Result<bool, Memory> {
    match (data.view(offset, size)?, part) {
        (Some(view), Some(part)) => Ok(reads(&view, part, None)),
        (view, part) => Ok(view.is_none() && part.is_none()),
    }
}

#[test]
fn shares_stand_on_the_bytes(rt: HostRuntime) -> Result<(), Fail> {
    let whole = five(rt.alloc())?;
    assert!(rt; reads(&whole, b"abcde", Some(b"map.bin")));
    let equal = whole.share()?;
    drop(whole);
    assert!(rt; reads(&equal, b"abcde", Some(b"map.bin")));
    Ok(())
}

#[test]
fn a_view_stands_on_the_bytes(rt: HostRuntime) -> Result<(), Fail> {
    let whole = five(rt.alloc())?;
    let inner = whole.view(1, 3)?.ok_or("a view")?;
    drop(whole);
    assert!(rt; reads(&inner, b"bcd", None));
    assert!(rt; views(&inner, 2, 1, Some(b"d"))?);
    Ok(())
}

#[test]
fn a_view_lies_within(rt: HostRuntime) -> Result<(), Fail> {
    let equal = five(rt.alloc())?.share()?;
    for (offset, size, part) in [
        (4, 2, None),
        (5, 0, Some(b"".as_slice())),
        (0, 5, Some(b"abcde".as_slice())),
        (6, 0, None),
        (usize::MAX, 2, None),
        (2, usize::MAX, None),
    ] {
        assert!(rt; views(&equal, offset, size, part)?, "{offset}, {size}");
    }
    Ok(())
}

#[test]
fn threads_read_the_same_bytes(rt: HostRuntime) -> Result<(), Fail> {
    let mine = Data::new(rt.alloc(), b"abcde", None)?;
    let theirs = mine.share()?;
    let (sent, lent) = thread::join(&rt, move || theirs.size(), || mine.size());
    assert!(rt; sent == 5 && lent == 5);
    is_send_and_sync(mine);
    Ok(())
}
