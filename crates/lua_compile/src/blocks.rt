// Blocks (Lua 5.1 manual §2.4.1, §2.4.2).
ghost use Rattle.std.specs.Prelude.{◌≡◌, [], OnOk};
ghost use Rattle.lua_tree.specs.View.{block_view};
ghost use Rattle.lua_code.specs.Code.{block_code};
ghost use Rattle.lua_assembler.specs.Writing.{Adds};
ghost use Rattle.lua_compile.specs.Locals.{TakesBlock};

use crate::locals::enter_block;
use crate::statements::stat_code;
use love_base::{Memory, Text};
use lua_assembler::control::tick;
use lua_assembler::lists::sum;
use lua_assembler::operands::site_of;
use lua_assembler::{Scope, Writer};
use lua_tree::Block;
use lua_upvalues::Names;

// The code of a block with a scope of its own. `exit` is how many instructions stand behind it up
// to the end of the loop around it.
#[cycle(code)]
pub(crate) fn block_code<'a>(
    w: &mut Writer,
    file: &'a Text,
    scope: &mut Scope<'a>,
    block: &'a Block,
    exit: u32,
) -> Result<(), Memory>
    ensures scope { OnOk result (scope.new ≡ scope.old) }
    ensures code { OnOk result (Adds
        (block_code (block_view block.now) [] exit file.now scope.old) w.old w.new) }
{
    let alloc = w.alloc();
    enter_block(alloc, scope, block, Names::new(alloc))?;
    stats_code(w, file, scope, block, exit)
}

// The code of a block whose locals are in scope; they go out of it.
#[cycle(code)]
pub(crate) fn stats_code<'a>(
    w: &mut Writer,
    file: &'a Text,
    scope: &mut Scope<'a>,
    block: &'a Block,
    exit: u32,
) -> Result<(), Memory>
    ensures { OnOk result
        (TakesBlock (block_view block.now) exit file.now scope.old scope.new w.old w.new) }
{
    let end = w.len();
    let stats = block.stats.as_slice();
    let mut at = stats.len();
    'stats: while at > 0 {
        at -= 1;
        let stat = &stats[at];
        let behind = sum(w.since(end)?, exit)?;
        stat_code(w, file, scope, stat, behind)?;
        let above = scope.slots();
        tick(w, site_of(scope, stat.line, above))?;
    }
    Ok(())
}
