ghost use Rattle.std.specs.Prelude.{◌≡◌, ◌+◌, ◌<◌, ◌^◌, length, IsTrue};
ghost use Rattle.channel_core.specs.Lawful.{IsAdmitted, NumbersBelow};

use crate::{Change, Channel, PutFault};
use love_base::{Memory, Stamp, Text};
use std::alloc::Global;
use std::process::Abort;
use std::test::Fail;
use variant::Variant;

// A call of state 0, and the answer to it that was worked out by hand.
#[derive(Clone, Copy)]
enum Call {
    /// The letter that is put, and the place and the id that this gives.
    Put(u8, u32, u32),
    /// The place, the id and the letter that a take gives.
    Take(u32, u32, u8),
    /// A take that gives nothing.
    Empty,
    /// The place that a clear gives, if it changes anything.
    Wipe(Option<u32>),
    /// The place that the beginning of a section gives.
    Enter(u32),
    /// The place that the end of a section gives.
    Leave(u32),
    /// An id, and whether it was read.
    Read(i64, bool),
    /// How many wait, and the letter in front.
    Waits(u32, Option<u8>),
}

use Call::{Empty, Enter, Leave, Put, Read, Take, Waits, Wipe};

// The stamp of an action of state 0.
fn main_state(number: u32) -> Stamp
    ensures { result ≡ record { state = 0; number = number } }
{
    Stamp { state: 0, number }
}

// The message that is a text of this one letter.
fn message(alloc: Global, letter: u8) -> Result<Variant, Memory> {
    Ok(Variant::Bytes(Text::of(alloc, &[letter])?))
}

fn is_text(message: &Variant, letter: u8) -> bool {
    match message {
        Variant::Bytes(text) => text.bytes() == [letter].as_slice(),
        _ => false,
    }
}

// Whether state 0 may change the Channel.
fn is_open(channel: &Channel) -> bool
    ensures { IsTrue result → IsAdmitted channel.now 0 }
{
    match channel.holder() {
        None => true,
        Some(state) => state == 0,
    }
}

// Makes one call as state 0's action of this number.
fn play(
    rt: &impl Abort,
    alloc: Global,
    channel: &mut Channel,
    number: u32,
    call: Call,
) -> Result<(), Fail>
    requires { NumbersBelow number channel.old }
    ensures { NumbersBelow (number + 1) channel.new }
{
    assert!(rt; is_open(channel));
    let by = main_state(number);
    match call {
        Put(letter, place, id) => match channel.put(by, message(alloc, letter)?) {
            Ok(given) => assert_eq!(rt; given, (place, id)),
            Err((_, fault)) => return Err(fault.into()),
        },
        Take(place, id, letter) => match channel.take(by)? {
            Some((at, number, message)) => {
                assert_eq!(rt; (at, number), (place, id));
                assert!(rt; is_text(&message, letter), "message {id}");
            }
            None => panic!(rt; "no message {id}"),
        },
        Empty => assert!(rt; channel.take(by)?.is_none()),
        Wipe(place) => assert_eq!(rt; channel.wipe(by)?, place),
        Enter(place) => {
            assert!(rt; channel.holder().is_none());
            assert_eq!(rt; channel.enter(by)?, place);
        }
        Leave(place) => {
            assert!(rt; channel.holder().is_some());
            assert_eq!(rt; channel.leave(by), place);
        }
        Read(id, was_read) => assert_eq!(rt; channel.has_read(id), was_read, "id {id}"),
        Waits(count, letter) => {
            assert_eq!(rt; channel.count(), count);
            match (channel.peek(), letter) {
                (None, None) => {}
                (Some(message), Some(letter)) => assert!(rt; is_text(message, letter)),
                _ => panic!(rt; "another message in front"),
            }
        }
    }
    Ok(())
}

// Makes the calls in order on a new Channel, numbered from 1.
fn played(rt: &impl Abort, alloc: Global, calls: &[Call]) -> Result<Channel, Fail>
    requires { length calls.now < 2 ^ 31 }
{
    let mut channel = Channel::new(alloc);
    let mut next: u32 = 1;
    for call in calls {
        play(rt, alloc, &mut channel, next, *call)?;
        next += 1;
    }
    Ok(channel)
}

#[test]
fn messages_come_in_the_order_in_which_they_were_put(rt: HostRuntime) -> Result<(), Fail> {
    let calls = [
        Put(b'a', 1, 1),
        Take(2, 1, b'a'),
        Empty,
        Put(b'b', 3, 2),
        Put(b'c', 4, 3),
        Waits(2, Some(b'b')),
        Take(5, 2, b'b'),
        Put(b'd', 6, 4),
        Take(7, 3, b'c'),
        Take(8, 4, b'd'),
        Empty,
        Waits(0, None),
    ];
    let channel = played(&rt, rt.alloc(), &calls)?;
    assert_eq!(rt; (channel.sent(), channel.received()), (4, 4));
    let puts = [true, false, true, true, false, true, false, false];
    let history = channel.history();
    assert_eq!(rt; history.len(), puts.len());
    for (entry, is_put) in history.iter().zip(puts) {
        assert_eq!(rt; entry.by.state, 0);
        assert_eq!(rt; matches!(entry.what, Change::Put(_)), is_put);
    }
    Ok(())
}

#[test]
fn sections_and_clears(rt: HostRuntime) -> Result<(), Fail> {
    let calls = [
        Put(b'a', 1, 1),
        Take(2, 1, b'a'),
        Empty,
        Enter(3),
        Leave(4),
        Wipe(None),
        Put(b'b', 5, 2),
        Read(2, false),
        Wipe(Some(6)),
        Read(2, true),
        Waits(0, None),
        Put(b'c', 7, 3),
        Enter(8),
        Put(b'd', 9, 4),
        Read(3, false),
        Take(10, 3, b'c'),
        Read(3, true),
        Read(4, false),
        Wipe(Some(11)),
        Read(4, true),
        Leave(12),
        Put(b'e', 13, 5),
    ];
    let channel = played(&rt, rt.alloc(), &calls)?;
    assert_eq!(rt; (channel.sent(), channel.received()), (5, 4));
    for (id, was_read) in [
        (0, false),
        (-1, false),
        (i64::MIN, false),
        (1, true),
        (4, true),
        (5, false),
        (6, false),
        (4_294_967_297, false),
        (99_999_999_999_999, false),
    ] {
        assert_eq!(rt; channel.has_read(id), was_read, "id {id}");
    }
    Ok(())
}

#[test]
fn numbers_rise_within_a_state_alone(rt: HostRuntime) -> Result<(), Fail> {
    let mut channel = Channel::new(rt.alloc());
    let later = Stamp {
        state: 1,
        number: 9,
    };
    match channel.put(later, Variant::Nil) {
        Ok(given) => assert_eq!(rt; given, (1, 1)),
        Err((_, fault)) => return Err(fault.into()),
    }
    assert!(rt; is_open(&channel));
    let taken = channel.take(main_state(1))?;
    assert!(rt; matches!(taken, Some((2, 1, Variant::Nil))));
    Ok(())
}

// One entry of a history whose first two messages are cleared, and whose others are taken in turn.
fn fill(rt: &impl Abort, channel: &mut Channel, number: u32) -> Result<(), Fail>
    requires { NumbersBelow number channel.old }
    ensures { NumbersBelow (number + 1) channel.new }
{
    assert!(rt; is_open(channel));
    let by = main_state(number);
    match number {
        3 => assert_eq!(rt; channel.wipe(by)?, Some(3)),
        _ if number < 3 || number % 2 == 0 => assert!(rt; channel.put(by, Variant::Nil).is_ok()),
        _ => assert!(rt; channel.take(by)?.is_some()),
    }
    Ok(())
}

#[test]
fn at_the_limit_a_section_still_ends(rt: HostRuntime) -> Result<(), Fail> {
    let alloc = rt.alloc();
    let mut channel = Channel::new(alloc);
    for i in 0..1_999_999u32 {
        fill(&rt, &mut channel, i + 1)?;
    }
    play(&rt, alloc, &mut channel, 2_000_000, Enter(2_000_000))?;
    assert_eq!(rt; channel.holder(), Some(0));
    assert!(rt; is_open(&channel));
    let refused = channel.put(main_state(2_000_001), Variant::Bool(false));
    assert!(rt; matches!(refused, Err((Variant::Bool(false), PutFault::Full))));
    play(&rt, alloc, &mut channel, 2_000_001, Empty)?;
    play(&rt, alloc, &mut channel, 2_000_002, Wipe(None))?;
    play(&rt, alloc, &mut channel, 2_000_003, Leave(2_000_001))?;
    assert!(rt; channel.holder().is_none());
    assert_eq!(rt; channel.enter(main_state(2_000_004)), Err(PutFault::Full));
    assert_eq!(rt; channel.history().len(), 2_000_001);
    Ok(())
}
