use crate::rendering::render;
use love_base::{Data, List, Text};
use lua_state::StateRecord;
use std::alloc::Global;
use std::test::Fail;
use variant::{EndKind, Source, StateLog};

// The record of a state that printed so and ended so.
fn record(
    alloc: Global,
    state: u32,
    source: Source,
    out: &[u8],
    end: EndKind,
) -> Result<StateRecord, Fail> {
    Ok(StateRecord {
        state,
        thread: state,
        source,
        args: List::new(alloc),
        trace: StateLog::new(alloc),
        out: Text::of(alloc, out)?,
        end,
        stop: None,
        told: false,
    })
}

// Whether state 0 with this end is rendered so.
fn is_main_rendered(alloc: Global, end: EndKind, rendered: &[u8]) -> Result<bool, Fail> {
    let source = Source::File(Text::of(alloc, b"main.lua")?);
    let states = vec![in alloc; record(alloc, 0, source, b"1\n", end)?]?;
    let bytes = render(alloc, states.as_slice())?;
    Ok(bytes.as_slice() == rendered)
}

// State 0's output, and how it ended unless it is done.
#[test]
fn ends_of_state_0(rt: HostRuntime) -> Result<(), Fail> {
    let alloc = rt.alloc();
    let error = EndKind::Error(Text::of(alloc, b"main.lua:2: boom")?);
    assert!(rt; is_main_rendered(alloc, EndKind::Done(None), b"1\n")?);
    assert!(rt; is_main_rendered(alloc, error, b"1\n-- state 0 error: main.lua:2: boom\n")?);
    assert!(rt; is_main_rendered(alloc, EndKind::OutOfSteps, b"1\n-- state 0 out of steps\n")?);
    assert!(rt; is_main_rendered(alloc, EndKind::Stopped, b"1\n-- state 0 waiting\n")?);
    assert!(rt; is_main_rendered(alloc, EndKind::Memory, b"1\n-- state 0 out of memory\n")?);
    Ok(())
}

// Further states: which they are, what they printed, how they ended.
#[test]
fn further_states(rt: HostRuntime) -> Result<(), Fail> {
    let alloc = rt.alloc();
    let name = Text::of(alloc, b"b.lua")?;
    let named = Data::new(alloc, b"return", Some(name))?;
    let code = Text::of(alloc, b"return 1")?;
    let states = vec![in alloc;
        record(
            alloc,
            0,
            Source::File(Text::of(alloc, b"main.lua")?),
            b"",
            EndKind::Done(None)
        )?,
        record(
            alloc,
            1,
            Source::File(Text::of(alloc, b"a.lua")?),
            b"x\n",
            EndKind::Stopped
        )?,
        record(alloc, 2, Source::FileData(named), b"", EndKind::Done(None))?,
        record(alloc, 10, Source::Code(code), b"y\n", EndKind::OutOfSteps)?,
    ]?;
    let bytes = render(alloc, states.as_slice())?;
    let rendered =
        b"-- state 1 a.lua\nx\n-- state 1 stopped\n-- state 2 b.lua\n-- state 2 done\n-- state 10 code\ny\n-- state 10 out of steps\n";
    assert_eq!(rt; bytes.as_slice(), rendered.as_slice());
    Ok(())
}
