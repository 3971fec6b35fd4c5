//! The names that blocks use from outside themselves (Lua 5.1 manual §2.6).

ghost use Rattle.std.specs.Prelude.{◌≡◌, [], ◌++◌, OnOk};
ghost use Rattle.lua_tree.specs.View.{block_view};
ghost use Rattle.lua_meaning.specs.Names.{block_names, without};

use crate::name_list::Names;
use crate::statements::stat_names;
use love_base::{Memory, Text};
use lua_tree::Block;

/// Makes the names of what follows a block in its scope those of both, with `here` as in
/// [`expr_names`](crate::expr_names): a local of the block leaves its name out of those behind it.
///
/// # Errors
///
/// [`Memory`] where there is no room for them.
#[cycle(names)]
pub fn block_names<'a>(names: &mut Names<'a>, here: bool, block: &'a Block) -> Result<(), Memory>
    ensures { OnOk result (names.new ≡ block_names here (block_view block.now) names.old) }
{
    let stats = block.stats.as_slice();
    let mut at = stats.len();
    'stats: while at > 0 {
        at -= 1;
        stat_names(names, here, &stats[at])?;
    }
    Ok(())
}

// Those of a block with a scope of its own, without some names that are declared for it.
#[cycle(names)]
pub(crate) fn inner_names<'a>(
    names: &mut Names<'a>,
    here: bool,
    declared: &[Text],
    block: &'a Block,
) -> Result<(), Memory>
    ensures { OnOk result
        (names.new ≡ without declared.now (block_names here (block_view block.now) []) ++ names.old) }
{
    let mut inside = names.apart();
    block_names(&mut inside, here, block)?;
    inside.leave_out(declared)?;
    names.put_all(inside)
}

// Those of a block with a scope of its own.
#[cycle(names)]
pub(crate) fn block_apart<'a>(
    names: &mut Names<'a>,
    here: bool,
    block: &'a Block,
) -> Result<(), Memory>
    ensures { OnOk result (names.new ≡ block_names here (block_view block.now) [] ++ names.old) }
{
    let mut inside = names.apart();
    block_names(&mut inside, here, block)?;
    names.put_all(inside)
}
