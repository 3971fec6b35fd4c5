//! A small game whose state 0 runs alone.
ghost use Rattle.std.specs.Prelude.{◌≤◌};

use crate::{Alone, build, run_alone};
use love_base::{Data, Memory, Text};
use std::alloc::Global;
use std::test::Fail;
use variant::EndKind;

// What the game comes to whose one file is `main.lua` with this source.
fn of_main(alloc: Global, source: &[u8], steps: u32) -> Result<Alone, Memory>
    requires { steps ≤ 1000000000 }
{
    let mut files = Vec::new(alloc);
    files.push((
        Text::of(alloc, b"main.lua")?,
        Data::new(alloc, source, None)?,
    ))?;
    let program = build(alloc, files)?;
    run_alone(alloc, &program, steps)
}

#[test]
fn a_game_runs_to_its_end(rt: HostRuntime) -> Result<(), Fail> {
    let alone = of_main(rt.alloc(), b"print(6/2, \"hi\")", 100)?;
    assert!(rt; matches!(alone.ran.end, EndKind::Done(_)));
    assert!(rt; alone.ran.out.bytes() == b"3\thi\n".as_slice());
    Ok(())
}
