ghost use Rattle.std.specs.Prelude.{◌+◌, ◌≤◌};
ghost use Rattle.thread_board.specs.Lawful.{NumbersBelow};

use crate::{Board, BoardFault, Named};
use love_base::{List, Stamp, Text};
use std::alloc::Global;
use std::process::Abort;
use std::test::Fail;
use variant::{EndKind, Source};

// A call, and the answer to it that was worked out by hand.
#[derive(Clone, Copy)]
enum Call {
    /// The letter that is a Channel's name, and what this gives.
    Name(u8, Named),
    /// What a Channel without a name gives.
    Channel(Result<Named, BoardFault>),
    /// What a new Thread gives.
    Thread(Result<(u32, u32), BoardFault>),
    /// The Thread that is started, and what this gives.
    Start(u32, Result<(u32, u32), BoardFault>),
    /// The state that worker 1 begins, if one waits.
    Take(Option<u32>),
    /// The state that ends, and the place that this gives.
    End(u32, u32),
    /// The place that state 0's end gives.
    MainEnd(u32),
    /// A Thread, whether it runs, and whether it has an error.
    Stands(u32, bool, bool),
}

use Call::{Channel, End, MainEnd, Name, Stands, Start, Take, Thread};

fn named(place: u32, channel: u32, changed: bool) -> Named {
    Named {
        place,
        channel,
        changed,
    }
}

// Makes one call, as the action of this number of state 0 or of the state that ends.
fn play(
    rt: &impl Abort,
    alloc: Global,
    board: &mut Board,
    number: u32,
    call: Call,
) -> Result<(), Fail>
    requires some { 1 ≤ number }
    requires below { NumbersBelow number board.old.history }
    ensures { NumbersBelow (number + 1) board.new.history }
{
    let by = Stamp { state: 0, number };
    match call {
        Name(letter, given) => {
            let name = Text::of(alloc, &[letter])?;
            assert_eq!(rt; board.name(by, &name)?, given);
        }
        Channel(given) => assert_eq!(rt; board.new_channel(by), given),
        Thread(given) => {
            let code = Source::Code(Text::of(alloc, b"")?);
            assert_eq!(rt; board.new_thread(by, code), given);
        }
        Start(thread, given) => {
            assert_eq!(rt; board.start(by, thread, List::new(alloc)), given);
        }
        Take(state) => {
            let workers = board.workers();
            assert!(rt; workers >= 1);
            match (board.take_job(1), state) {
                (Some(job), Some(state)) => assert_eq!(rt; job.state, state),
                (None, None) => {}
                _ => panic!(rt; "another job"),
            }
        }
        End(state, place) => {
            assert!(rt; board.is_working(state));
            let by = Stamp { state, number };
            assert_eq!(rt; board.end(by, EndKind::OutOfSteps), place);
        }
        MainEnd(place) => {
            let workers = board.workers();
            assert!(rt; workers > 0);
            let ended = board.ended();
            assert!(rt; ended.is_none());
            assert_eq!(rt; board.main_end(by), place);
        }
        Stands(thread, runs, failed) => {
            assert_eq!(rt; board.running(thread), runs, "Thread {thread}");
            assert_eq!(rt; board.error_of(thread).is_some(), failed, "Thread {thread}");
        }
    }
    Ok(())
}

#[test]
fn one_worker(rt: HostRuntime) -> Result<(), Fail> {
    let alloc = rt.alloc();
    let mut board = Board::new(alloc, 1)?;
    let calls = [
        Name(b'a', named(1, 1, true)),
        Name(b'a', named(1, 1, false)),
        Thread(Ok((2, 1))),
        Start(1, Ok((3, 1))),
        Start(1, Err(BoardFault::AlreadyRunning { state: 1 })),
        Thread(Ok((4, 2))),
        Start(2, Err(BoardFault::TooManyRunning { running: 1 })),
        Start(9, Err(BoardFault::NoSuchThread)),
        Take(Some(1)),
        Take(None),
        End(1, 6),
        MainEnd(7),
        Start(1, Err(BoardFault::Closed { place: 7 })),
    ];
    let mut number: u32 = 1;
    for call in calls.as_slice() {
        play(&rt, alloc, &mut board, number, *call)?;
        number += 1;
    }
    assert_eq!(rt; board.history().len(), 7);
    assert_eq!(rt; board.error_of(1), Some(b"out of steps".as_slice()));
    assert!(rt; !board.running(1) && board.error_of(2).is_none() && board.has_begun(1));
    Ok(())
}

// Jobs begin in the order of their starts, also where a state ended before one of them began; and a
// Thread that starts again loses its error.
#[test]
fn two_workers(rt: HostRuntime) -> Result<(), Fail> {
    let alloc = rt.alloc();
    let mut board = Board::new(alloc, 2)?;
    let calls = [
        Thread(Ok((1, 1))),
        Thread(Ok((2, 2))),
        Thread(Ok((3, 3))),
        Stands(1, false, false),
        Start(1, Ok((4, 1))),
        Start(2, Ok((5, 2))),
        Start(3, Err(BoardFault::TooManyRunning { running: 2 })),
        Stands(2, true, false),
        Take(Some(1)),
        End(1, 7),
        Stands(1, false, true),
        Start(3, Ok((8, 3))),
        Take(Some(2)),
        Take(Some(3)),
        Take(None),
        End(3, 11),
        Stands(1, false, true),
        Start(1, Ok((12, 4))),
        Stands(1, true, false),
        Stands(3, false, true),
        Take(Some(4)),
        End(4, 14),
        Stands(1, false, true),
        Stands(4, false, false),
    ];
    let mut number: u32 = 1;
    for call in calls.as_slice() {
        play(&rt, alloc, &mut board, number, *call)?;
        number += 1;
    }
    Ok(())
}

#[test]
fn limits(rt: HostRuntime) -> Result<(), Fail> {
    let alloc = rt.alloc();
    let mut board = Board::empty(alloc);
    for i in 1..1_025u32 {
        play(&rt, alloc, &mut board, i, Channel(Ok(named(i, i, true))))?;
    }
    for i in 1_025..2_025u32 {
        play(&rt, alloc, &mut board, i, Thread(Ok((i, i - 1_024))))?;
    }
    let channel = Channel(Err(BoardFault::TooManyChannels));
    play(&rt, alloc, &mut board, 2_025, channel)?;
    let thread = Thread(Err(BoardFault::TooManyThreads));
    play(&rt, alloc, &mut board, 2_026, thread)?;
    Ok(())
}

#[test]
fn starts(rt: HostRuntime) -> Result<(), Fail> {
    let alloc = rt.alloc();
    let mut board = Board::new(alloc, 1)?;
    play(&rt, alloc, &mut board, 1, Thread(Ok((1, 1))))?;
    for i in 0..1_000u32 {
        let state = i + 1;
        let place = 3 * i + 2;
        play(&rt, alloc, &mut board, place, Start(1, Ok((place, state))))?;
        play(&rt, alloc, &mut board, place + 1, Take(Some(state)))?;
        play(&rt, alloc, &mut board, place + 2, End(state, place + 2))?;
    }
    let over = Start(1, Err(BoardFault::TooManyStarts));
    play(&rt, alloc, &mut board, 3_002, over)?;
    Ok(())
}
