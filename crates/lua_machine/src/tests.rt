use crate::engine::Engine;
use crate::status::{Pause, Status};
use love_base::{List, Memory, Text};
use lua_code::{Code, Constant, Instr, Program, Proto, Site};
use lua_heap::Value;
use lua_value::Num;
use std::alloc::Global;

// The code of a chunk of these instructions, over its constants.
fn chunk(
    alloc: Global,
    constants: Vec<Constant>,
    instrs: &[Instr],
) -> Result<Option<Code>, Memory> {
    let file = Text::of(alloc, b"a.lua")?;
    let mut proto = Proto::new(alloc, file, 0, true, List::new(alloc));
    for constant in constants {
        proto.add_constant(constant)?;
    }
    for instr in instrs {
        if !proto.knows(*instr) {
            return Ok(None);
        }
        let site = Site {
            line: 1,
            above: 0,
            cells: 0,
        };
        proto.append(*instr, site)?;
    }
    let mut protos = Vec::new(alloc);
    protos.push(proto)?;
    Ok(Code::check(protos))
}

#[test]
fn a_loop_ends_or_runs_out_of_ticks(rt: HostRuntime) -> Result<(), Memory> {
    let alloc = rt.alloc();
    let mut constants = Vec::new(alloc);
    constants.push(Constant::Bool(true))?;
    constants.push(Constant::Nil)?;
    constants.push(Constant::Str(Text::of(alloc, b"over")?))?;
    let instrs = [
        Instr::Const { to: 0, constant: 0 },
        Instr::Const { to: 1, constant: 0 },
        Instr::SkipUnless { from: 0, count: 4 },
        Instr::Move { to: 0, from: 1 },
        Instr::Const { to: 1, constant: 1 },
        Instr::Tick,
        Instr::BackIf { from: 0, count: 4 },
        Instr::NewTable { to: 0 },
        Instr::Const { to: 1, constant: 2 },
        Instr::Leave {
            from: 1,
            count: 1,
            tailed: false,
        },
    ];
    let code = chunk(alloc, constants, &instrs)?;
    let Some(code) = code else {
        assert!(rt; false);
        return Ok(());
    };
    let program = Program {
        files: List::new(alloc),
    };
    let args = List::new(alloc);
    let mut engine = Engine::begin(alloc, &code, &args, 3, 1)?;
    let pause = engine.run(&program, 1, Status::Goes)?;
    assert!(rt; matches!(pause, Pause::Ended));
    assert!(rt; engine.args.len() == 1);
    let mut short = Engine::begin(alloc, &code, &args, 2, 1)?;
    let pause = short.run(&program, 1, Status::Goes)?;
    assert!(rt; matches!(pause, Pause::NoTick));
    Ok(())
}

// Whether a value is a number.
fn is_number(value: Value, number: i64) -> bool {
    match value {
        Value::Num(n) => n.get() == number,
        _ => false,
    }
}

// The constant of a number.
fn number(n: i64) -> Constant {
    match Num::new(n) {
        Some(number) => Constant::Num(number),
        None => Constant::Nil,
    }
}

#[test]
fn a_numeric_loop_takes_a_tick_for_each_turn(rt: HostRuntime) -> Result<(), Memory> {
    let alloc = rt.alloc();
    let mut constants = Vec::new(alloc);
    constants.push(number(5))?;
    constants.push(number(1))?;
    constants.push(number(-2))?;
    let instrs = [
        Instr::Const { to: 0, constant: 0 },
        Instr::Const { to: 1, constant: 1 },
        Instr::Const { to: 2, constant: 2 },
        Instr::ForBegin { at: 0, count: 2 },
        Instr::Move { to: 4, from: 3 },
        Instr::ForNext { at: 0, count: 1 },
        Instr::Leave {
            from: 4,
            count: 1,
            tailed: false,
        },
    ];
    let code = chunk(alloc, constants, &instrs)?;
    let Some(code) = code else {
        assert!(rt; false);
        return Ok(());
    };
    let program = Program {
        files: List::new(alloc),
    };
    let args = List::new(alloc);
    let mut engine = Engine::begin(alloc, &code, &args, 3, 1)?;
    let pause = engine.run(&program, 1, Status::Goes)?;
    assert!(rt; matches!(pause, Pause::Ended));
    assert!(rt; engine.ticks == 0);
    assert!(rt; engine.args.len() == 1);
    assert!(rt; is_number(engine.args[0], 1));
    Ok(())
}
