ghost use Rattle.std.specs.Prelude.{◌<◌, length};

use love_base::{CountSink, MemSink, Sink, SinkErr};
use std::alloc::Global;
use std::test::Fail;

// What a sink answers to one piece and then another.
fn written<S: Sink>(sink: &mut S, one: &[u8], other: &[u8]) -> [Result<usize, SinkErr>; 2]
    requires one { 0 < length one.now }
    requires other { 0 < length other.now }
{
    [sink.write(one), sink.write(other)]
}

// Whether a sink that takes so many bytes a call, and whose calls of these numbers fail, answers so
// and takes these bytes.
fn answers(
    alloc: Global,
    most: usize,
    numbers: &[u64],
    answers: [Result<usize, SinkErr>; 2],
    taken: &[u8],
) -> Result<bool, Fail>
    requires { 0 < most }
{
    let mut sink = MemSink::new(alloc, most, Vec::from_slice(alloc, numbers)?);
    let found = written(&mut sink, b"hello", b"world !");
    Ok(found == answers && sink.taken() == taken)
}

#[test]
fn a_sink_takes_at_most_so_many_and_fails_where_it_is_told(rt: HostRuntime) -> Result<(), Fail> {
    let failed = Err(SinkErr::Failed);
    let rows = [
        (1, [].as_slice(), [Ok(1), Ok(1)], b"hw".as_slice()),
        (3, &[], [Ok(3), Ok(3)], b"helwor"),
        (5, &[], [Ok(5), Ok(5)], b"helloworld"),
        (6, &[], [Ok(5), Ok(6)], b"helloworld "),
        (usize::MAX, &[], [Ok(5), Ok(7)], b"helloworld !"),
        (3, &[2], [Ok(3), failed], b"hel"),
        (3, &[1], [failed, Ok(3)], b"wor"),
        (3, &[2, 1, 2], [failed, failed], b""),
        (3, &[0, 3], [Ok(3), Ok(3)], b"helwor"),
    ];
    for (most, numbers, wanted, taken) in rows {
        let right = most > 0 && answers(rt.alloc(), most, numbers, wanted, taken)?;
        assert!(rt; right, "{most} a call, {numbers:?}");
    }
    Ok(())
}

#[test]
fn a_counting_sink_takes_all(rt: HostRuntime) {
    let mut sink = CountSink::new();
    assert!(rt; sink.taken() == 0);
    assert!(rt; written(&mut sink, b"a", &[0; 5000]) == [Ok(1), Ok(5000)]);
    assert!(rt; sink.taken() == 5001);
}
