// The locals of blocks, which come into scope and go out of it (Lua 5.1 manual §2.6).
ghost use Rattle.std.specs.Prelude.{◌≡◌, ◌++◌, ◌∷◌, [], false, map, OnOk};
ghost use Rattle.lua_tree.specs.View.{block_view, expr_view, stat_view};
ghost use Rattle.lua_meaning.specs.Names.{expr_names, stat_names, captured_in};
ghost use Rattle.lua_code.specs.Scope.{Scope as Locals, declared};
ghost use Rattle.lua_code.specs.Code.{scope_at_end, scope_behind, numbers_in};
ghost use Rattle.lua_assembler.specs.Seats.{entry_view};
ghost use Rattle.lua_compile.specs.Locals.{Precedes, TakesLocals, TakesEntry};

use crate::captures::{declare, local};
use love_base::{Memory, Text};
use lua_assembler::moves::new_cell;
use lua_assembler::operands::site_of;
use lua_assembler::{Entry, Scope, Writer};
use lua_tree::{Block, Expr, Stat, StatKind};
use lua_upvalues::{Names, block_names, expr_names, func_names, stat_names};
use std::alloc::Global;
use std::slice;

// The locals of a block's statements come into scope. `after` has the names that functions use in
// what follows the block in its scope.
pub(crate) fn enter_block<'a>(
    alloc: Global,
    scope: &mut Scope<'a>,
    block: &'a Block,
    after: Names<'a>,
) -> Result<(), Memory>
    ensures { OnOk result
        (scope.new ≡ scope_at_end (block_view block.now) after.entry scope.old) }
{
    let mut later = after;
    let mut locals = Vec::new(alloc);
    let stats = block.stats.as_slice();
    let mut at = stats.len();
    'stats: while at > 0 {
        at -= 1;
        put_stat(&mut locals, &mut later, &stats[at])?;
    }
    enter(scope, locals)
}

// The locals of a statement, in front of those behind it. `later` has the names that functions use
// in what follows the statement, and gets those of its own.
fn put_stat<'a>(
    locals: &mut Vec<Entry<'a>>,
    later: &mut Names<'a>,
    stat: &'a Stat,
) -> Result<(), Memory>
    ensures locals { OnOk result
        (Precedes (scope_behind (stat_view stat.now) later.old) locals.old.items locals.new.items) }
    ensures later { OnOk result (later.new ≡ stat_names false (stat_view stat.now) later.old) }
{
    match &stat.what {
        StatKind::Local(names, _) => {
            put_locals(locals, names.as_slice(), later)?;
            stat_names(later, false, stat)
        }
        StatKind::LocalFunction(name, func) => {
            func_names(later, func)?;
            put_locals(locals, slice::from_ref(name), later)?;
            later.leave_out(slice::from_ref(name))
        }
        StatKind::Assign(_, _)
        | StatKind::Call(_)
        | StatKind::Do(_)
        | StatKind::While(_, _)
        | StatKind::Repeat(_, _)
        | StatKind::If(_, _)
        | StatKind::NumFor(_, _, _, _, _)
        | StatKind::GenFor(_, _, _)
        | StatKind::Function(_, _)
        | StatKind::Return(_)
        | StatKind::Break => stat_names(later, false, stat),
    }
}

// Locals of some names, in front of those behind them. `captured` has the names that functions in
// their scope use.
fn put_locals<'a>(
    locals: &mut Vec<Entry<'a>>,
    names: &'a [Text],
    captured: &Names,
) -> Result<(), Memory>
    ensures { OnOk result
        (Precedes (declared names.now captured.now) locals.old.items locals.new.items) }
{
    let mut at = names.len();
    'names: while at > 0 {
        let behind = at;
        at -= 1;
        locals.push(local(&names[at], &names[behind..], captured))?;
    }
    Ok(())
}

// Locals come into scope, the last one of the list first.
fn enter<'a>(scope: &mut Scope<'a>, mut locals: Vec<Entry<'a>>) -> Result<(), Memory>
    ensures { OnOk result (scope.new ≡ map entry_view locals.entry.items ++ scope.old) }
{
    'locals: while let Some(entry) = locals.pop() {
        scope.add(entry)?;
    }
    Ok(())
}

// The locals of a block come into scope that the test of its `repeat` sees too.
pub(crate) fn enter_repeat<'a>(
    alloc: Global,
    scope: &mut Scope<'a>,
    block: &'a Block,
    test: &'a Expr,
) -> Result<(), Memory>
    ensures { OnOk result (scope.new
        ≡ scope_at_end (block_view block.now) (expr_names false (expr_view test.now)) scope.old) }
{
    let mut after = Names::new(alloc);
    expr_names(&mut after, false, test)?;
    enter_block(alloc, scope, block, after)
}

// The three slots of a loop and the locals of its turns come into scope.
pub(crate) fn enter_turn<'a>(
    alloc: Global,
    scope: &mut Scope<'a>,
    names: &'a [Text],
    block: &'a Block,
) -> Result<(), Memory>
    ensures { OnOk result (scope.new
        ≡ declared names.now (captured_in (block_view block.now)) (numbers_in scope.old)) }
{
    let mut captured = Names::new(alloc);
    block_names(&mut captured, false, block)?;
    scope.add(Entry::Hidden)?;
    scope.add(Entry::Hidden)?;
    scope.add(Entry::Hidden)?;
    declare(scope, names, &captured)
}

// The three slots of a loop go out of scope.
pub(crate) fn leave_numbers(scope: &mut Scope)
    ensures { (outer : Locals) → scope.old ≡ numbers_in outer → scope.new ≡ outer }
{
    let _step = scope.pop();
    let _limit = scope.pop();
    let _first = scope.pop();
}

// So many locals, the last ones in scope, go out of it, and those that are captured get their cells.
pub(crate) fn put_cells(
    w: &mut Writer,
    scope: &mut Scope,
    line: u32,
    count: usize,
) -> Result<(), Memory>
    ensures { OnOk result (TakesLocals count scope.old scope.new w.old w.new) }
{
    let mut left = count;
    'locals: while left > 0 {
        left -= 1;
        put_cell(w, scope, line)?;
    }
    Ok(())
}

// The last local in scope goes out of it, and gets its cell where it is captured.
fn put_cell(w: &mut Writer, scope: &mut Scope, line: u32) -> Result<(), Memory>
    ensures { OnOk result (TakesEntry scope.old scope.new w.old w.new) }
{
    match scope.pop() {
        Some(Entry::Cell(_)) => {
            let from = scope.slots();
            new_cell(w, site_of(scope, line, from), scope.cells(), from)
        }
        _ => Ok(()),
    }
}
