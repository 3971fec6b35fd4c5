//! The code of a chunk.

ghost use Rattle.std.specs.Prelude.{◌≡◌, List, [], None, IfOk, IsErrOf, MatchResult};
ghost use Rattle.lua_tree.specs.View.{block_view};
ghost use Rattle.lua_code.specs.Code.{chunk_code};
ghost use Rattle.lua_code.specs.Trees.{chunk_of};
ghost use Rattle.lua_code.specs.Valid.{AreValid};
ghost use Rattle.lua_code.specs.View.{ProtoView};
ghost use Rattle.lua_compile.specs.declared.fault.CompileFault.TheVariants.{NotInOrder};
ghost use Rattle.lua_upvalues.specs.Upvalues.{block_fault};
ghost use Rattle.lua_compile.specs.Fault.{IsCause};

use crate::blocks::block_code;
use crate::fault::CompileFault;
use love_base::{Memory, Text};
use lua_assembler::control::leave;
use lua_assembler::operands::site_of;
use lua_assembler::{Scope, Writer};
use lua_code::{Code, Proto};
use lua_tree::Chunk;
use lua_upvalues::check_upvalues;
use std::alloc::Global;

/// The code of a chunk whose source has a name: what the definitions of `lua_code` give its tree.
///
/// # Errors
///
/// [`CompileFault::TooManyUpvalues`] exactly where a function uses over 255 locals of the functions
/// around it, unless memory runs out first; [`CompileFault::NotInOrder`] only where [`Code::check`]
/// refuses functions that stand for that code, which isn't known to happen; [`CompileFault::Memory`]
/// where there is no room for the code.
pub fn compile(alloc: Global, chunk: &Chunk, name: &Text) -> Result<Code, CompileFault>
    ensures code { IfOk result (λ code.
        chunk_of code ≡ chunk_code name.now (block_view chunk.now.block)) }
    ensures fault { MatchResult result
        (λ code. block_fault (block_view chunk.now.block) [] ≡ None)
        (λ fault. IsCause (block_fault (block_view chunk.now.block) []) fault) }
    ensures not_in_order { IsErrOf result NotInOrder → (protos : List ProtoView)
        × (chunk_of protos ≡ chunk_code name.now (block_view chunk.now.block)) × ¬ AreValid protos }
{
    check_upvalues(alloc, &chunk.block)?;
    match Code::check(protos(alloc, chunk, name)?) {
        Some(code) => Ok(code),
        None => Err(CompileFault::NotInOrder),
    }
}

// The functions of a chunk, its own last.
fn protos(alloc: Global, chunk: &Chunk, name: &Text) -> Result<Vec<Proto>, Memory>
    ensures { IfOk result (λ protos.
        chunk_of protos.items ≡ chunk_code name.now (block_view chunk.now.block)) }
{
    let mut w = Writer::new(alloc, name.copy(alloc)?);
    let mut scope = Scope::new(alloc);
    leave(&mut w, site_of(&scope, 1, 0), 0, 0, false)?;
    block_code(&mut w, name, &mut scope, &chunk.block, 0)?;
    w.finish()
}
