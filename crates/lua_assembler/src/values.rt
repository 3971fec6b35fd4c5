//! The instructions of expressions without parts (Lua 5.1 manual §2.5), and of new tables.

ghost use Rattle.std.specs.Prelude.{◌≡◌, [], ◌∷◌, OnOk};
ghost use Rattle.lua_meaning.specs.Value.{str};
ghost use Rattle.lua_code.specs.Instr as i;
ghost use Rattle.lua_code.specs.Instr.{constant as known};
ghost use Rattle.lua_code.specs.View.{constant_view};
ghost use Rattle.lua_assembler.specs.Writing.{Adds};

use crate::fields::new_table;
use crate::moves::{all_extra, first_extra, load_constant};
use crate::operands::site_of;
use crate::{Scope, Writer};
use love_base::{Memory, Text};
use lua_code::Constant;

/// A constant goes to a slot.
///
/// # Errors
///
/// [`Memory`] where there is no room for it, or no number for a constant.
pub fn put_constant(
    w: &mut Writer,
    scope: &Scope,
    line: u32,
    h: u32,
    to: u32,
    constant: Constant,
) -> Result<(), Memory>
    ensures { OnOk result
        (Adds (i.load to (known (constant_view constant)) ∷ []) w.old w.new) }
{
    load_constant(w, site_of(scope, line, h), to, constant)
}

/// A string goes to a slot.
///
/// # Errors
///
/// [`Memory`] where there is no room for it, or no number for a constant.
pub fn put_text(
    w: &mut Writer,
    scope: &Scope,
    line: u32,
    h: u32,
    to: u32,
    text: &Text,
) -> Result<(), Memory>
    ensures { OnOk result (Adds (i.load to (known (str text.now)) ∷ []) w.old w.new) }
{
    let text = text.copy(w.alloc())?;
    put_constant(w, scope, line, h, to, Constant::Str(text))
}

/// The first extra argument goes to a slot, nil where there is none.
///
/// # Errors
///
/// [`Memory`] where there is no room for it.
pub fn put_dots(w: &mut Writer, scope: &Scope, line: u32, h: u32, to: u32) -> Result<(), Memory>
    ensures { OnOk result (Adds (i.first_extra to ∷ []) w.old w.new) }
{
    first_extra(w, site_of(scope, line, h), to)
}

/// All extra arguments go to the tail.
///
/// # Errors
///
/// [`Memory`] where there is no room for it.
pub fn put_all_dots(w: &mut Writer, scope: &Scope, line: u32, h: u32) -> Result<(), Memory>
    ensures { OnOk result (Adds (i.all_extra ∷ []) w.old w.new) }
{
    all_extra(w, site_of(scope, line, h))
}

/// A new table goes to a slot.
///
/// # Errors
///
/// [`Memory`] where there is no room for it.
pub fn put_table(w: &mut Writer, scope: &Scope, line: u32, h: u32) -> Result<(), Memory>
    ensures { OnOk result (Adds (i.new_table h ∷ []) w.old w.new) }
{
    new_table(w, site_of(scope, line, h), h)
}
