// `if` (Lua 5.1 manual §2.4.4).
ghost use Rattle.std.specs.Prelude.{◌≡◌, map, OnOk};
ghost use Rattle.lua_tree.specs.View.{arm_view, arms_of, else_of};
ghost use Rattle.lua_code.specs.Code.{arms_code};
ghost use Rattle.lua_compile.specs.Arms.{AddsArm};
ghost use Rattle.lua_upvalues.specs.Parts.{block_option};
ghost use Rattle.lua_assembler.specs.Writing.{Adds};

use crate::blocks::block_code;
use crate::expressions::left_code;
use love_base::{Memory, Text};
use lua_assembler::control::skip_unless;
use lua_assembler::jumps::put_skip_over;
use lua_assembler::lists::sum;
use lua_assembler::operands::{left_slot, site_of};
use lua_assembler::{Scope, Writer};
use lua_tree::{Arm, Block};

// `if a then elseif b then else end`
#[cycle(code)]
pub(crate) fn if_code<'a>(
    w: &mut Writer,
    file: &'a Text,
    scope: &mut Scope<'a>,
    arms: &'a [Arm],
    last: &'a Option<Block>,
    exit: u32,
) -> Result<(), Memory>
    ensures scope { OnOk result (scope.new ≡ scope.old) }
    ensures code { OnOk result (Adds (arms_code
        (arms_of (map arm_view arms.now) (else_of (block_option last.now))) exit file.now scope.old)
        w.old w.new) }
{
    let end = w.len();
    else_code(w, file, scope, last, exit)?;
    let mut at = arms.len();
    'arms: while at > 0 {
        at -= 1;
        arm_code(w, file, scope, &arms[at], end, exit)?;
    }
    Ok(())
}

// What is behind `else`.
#[cycle(code)]
fn else_code<'a>(
    w: &mut Writer,
    file: &'a Text,
    scope: &mut Scope<'a>,
    last: &'a Option<Block>,
    exit: u32,
) -> Result<(), Memory>
    ensures scope { OnOk result (scope.new ≡ scope.old) }
    ensures code { OnOk result (Adds
        (arms_code (else_of (block_option last.now)) exit file.now scope.old) w.old w.new) }
{
    match last {
        None => Ok(()),
        Some(block) => block_code(w, file, scope, block, exit),
    }
}

// An arm, in front of what was put down since there were `end` instructions.
#[cycle(code)]
fn arm_code<'a>(
    w: &mut Writer,
    file: &'a Text,
    scope: &mut Scope<'a>,
    arm: &'a Arm,
    end: usize,
    exit: u32,
) -> Result<(), Memory>
    ensures scope { OnOk result (scope.new ≡ scope.old) }
    ensures code { OnOk result
        (AddsArm (arm_view arm.now) exit file.now scope.old end w.old w.new) }
{
    let h = scope.slots();
    let site = site_of(scope, arm.test.line, h);
    let rest = w.len();
    put_skip_over(w, site, end)?;
    block_code(w, file, scope, &arm.block, sum(w.since(end)?, exit)?)?;
    skip_unless(w, site, left_slot(scope, &arm.test, h), w.since(rest)?)?;
    left_code(w, file, scope, &arm.test, h)
}
