// Functions (Lua 5.1 manual §2.5.9).
ghost use Rattle.std.specs.Prelude.{◌≡◌, [], ◌∷◌, IfOk, OnOk};
ghost use Rattle.lua_tree.specs.View.{func_view};
ghost use Rattle.lua_meaning.specs.Names.{func_names};
ghost use Rattle.lua_code.specs.Instr as i;
ghost use Rattle.lua_code.specs.Code.{func_code};
ghost use Rattle.lua_code.specs.Scope.{cell_names, cell_places};
ghost use Rattle.lua_assembler.specs.Writing.{Adds};
ghost use Rattle.lua_compile.specs.Functions.{IsMade, func_body, func_inner};

use crate::blocks::block_code;
use crate::captures::{declare, places, scope_inside};
use crate::locals::put_cells;
use love_base::{List, Memory, Text};
use lua_assembler::control::leave;
use lua_assembler::lists::slot_at;
use lua_assembler::moves::close;
use lua_assembler::operands::site_of;
use lua_assembler::{Scope, Writer};
use lua_tree::Func;
use lua_upvalues::{Names, block_names, func_names};
use std::alloc::Global;

// A slot gets a new function.
#[cycle(code)]
pub(crate) fn function_code<'a>(
    w: &mut Writer,
    file: &'a Text,
    scope: &Scope<'a>,
    line: u32,
    func: &'a Func,
    to: u32,
) -> Result<(), Memory>
    ensures { OnOk result (Adds (i.close to
        (func_code (func_view func.now) file.now
        (cell_names scope.now (func_names (func_view func.now))))
        (cell_places scope.now (func_names (func_view func.now))) ∷ []) w.old w.new) }
{
    let proto = function(w, file, scope, func)?;
    close(w, site_of(scope, line, to), to, proto)
}

// The names that a function uses from outside.
fn names_of<'a>(alloc: Global, func: &'a Func) -> Result<Names<'a>, Memory>
    ensures { IfOk result (λ names. names ≡ func_names (func_view func.now)) }
{
    let mut names = Names::new(alloc);
    func_names(&mut names, func)?;
    Ok(names)
}

// A function is made, behind those that are made already: its number.
#[cycle(code)]
fn function<'a>(
    w: &mut Writer,
    file: &'a Text,
    scope: &Scope<'a>,
    func: &'a Func,
) -> Result<u32, Memory>
    ensures made { IfOk result (λ n.
        IsMade n (func_inner (func_view func.now) file.now scope.now) w.new) }
    ensures same { OnOk result (Adds [] w.old w.new) }
{
    let alloc = w.alloc();
    let names = names_of(alloc, func)?;
    let captures = List::from_vec(places(alloc, scope, &names)?);
    let mut inside = scope_inside(alloc, scope, &names)?;
    let params = slot_at(0, func.params.len())?;
    let around = w.open(file.copy(alloc)?, params, func.dots, captures);
    body_code(w, file, &mut inside, func)?;
    let number = w.close(around)?;
    Ok(number)
}

// What a function does, with the locals in scope that it finds around it. Its parameters are in
// scope behind it.
#[cycle(code)]
fn body_code<'a>(
    w: &mut Writer,
    file: &'a Text,
    scope: &mut Scope<'a>,
    func: &'a Func,
) -> Result<(), Memory>
    ensures { OnOk result (Adds (func_body (func_view func.now) file.now scope.old) w.old w.new) }
{
    let params = func.params.as_slice();
    let mut captured = Names::new(w.alloc());
    block_names(&mut captured, false, &func.body)?;
    declare(scope, params, &captured)?;
    leave(w, site_of(scope, func.line, scope.slots()), 0, 0, false)?;
    block_code(w, file, scope, &func.body, 0)?;
    put_cells(w, scope, func.line, params.len())
}
