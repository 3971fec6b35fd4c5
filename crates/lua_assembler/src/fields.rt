//! Instructions on tables and globals: fields that are read and set, and what new tables get.

ghost use Rattle.std.specs.Prelude.{[], ◌∷◌, OnOk};
ghost use Rattle.lua_meaning.specs.Value.{str};
ghost use Rattle.lua_meaning.specs.Expressions.{globals};
ghost use Rattle.lua_code.specs.Instr as i;
ghost use Rattle.lua_code.specs.Instr.{slot, constant as known};
ghost use Rattle.lua_code.specs.View.{site_view};
ghost use Rattle.lua_assembler.specs.Writing.{Adds, constants_of};
ghost use Rattle.lua_assembler.specs.Places.{place_view, IsKnown};

use crate::Writer;
use crate::place::Place;
use love_base::{Memory, Text};
use lua_code::{Constant, Instr, Site};
use std::alloc::Global;

// A slot gets a new table.
#[tactic(auto, using(crate::proofs::Adding::one_put))]
pub(crate) fn new_table(w: &mut Writer, site: Site, to: u32) -> Result<(), Memory>
    ensures { OnOk result (Adds (i.new_table to ∷ []) w.old w.new) }
{
    w.put(Instr::NewTable { to }, site)
}

// A table gets an item.
#[tactic(auto, using(crate::proofs::Adding::one_put))]
pub(crate) fn set_item(
    w: &mut Writer,
    site: Site,
    table: u32,
    number: u32,
    value: Place,
) -> Result<(), Memory>
    requires { IsKnown (constants_of w.old) value }
    ensures { OnOk result (Adds
        (i.set_item table number (place_view (constants_of w.old) value) ∷ [])
        w.old w.new) }
{
    let instr = match value {
        Place::Slot(from) => Instr::SetItem {
            table,
            number,
            from,
        },
        Place::Constant(constant) => Instr::SetItemConst {
            table,
            number,
            constant,
        },
    };
    w.put(instr, site)
}

// A table gets the tail as its items from a number on.
#[tactic(auto, using(crate::proofs::Adding::one_put))]
pub(crate) fn set_rest(w: &mut Writer, site: Site, table: u32, number: u32) -> Result<(), Memory>
    ensures { OnOk result (Adds (i.set_rest table number ∷ []) w.old w.new) }
{
    w.put(Instr::SetRest { table, number }, site)
}

// A new table gets a field.
#[tactic(auto, using(crate::proofs::Adding::one_put))]
pub(crate) fn set_new(
    w: &mut Writer,
    site: Site,
    table: u32,
    key: Place,
    value: Place,
) -> Result<(), Memory>
    requires key { IsKnown (constants_of w.old) key }
    requires value { IsKnown (constants_of w.old) value }
    ensures { OnOk result (Adds
        (i.set_new (site_view site) table (place_view (constants_of w.old) key) (place_view
        (constants_of w.old) value) ∷ [])
        w.old w.new) }
{
    match (key, value) {
        (Place::Slot(key), Place::Slot(from)) => w.put(Instr::SetNew { table, key, from }, site),
        (Place::Slot(key), Place::Constant(constant)) => w.put(
            Instr::SetNewConst {
                table,
                key,
                constant,
            },
            site,
        ),
        (Place::Constant(name), Place::Slot(from)) => {
            w.put(Instr::SetNewNamed { table, name, from }, site)
        }
        (Place::Constant(name), Place::Constant(constant)) => w.put(
            Instr::SetNewNamedConst {
                table,
                name,
                constant,
            },
            site,
        ),
    }
}

// A field of what is in a slot.
#[tactic(auto, using(crate::proofs::Adding::one_put))]
pub(crate) fn get_field(
    w: &mut Writer,
    site: Site,
    to: u32,
    base: u32,
    key: Place,
) -> Result<(), Memory>
    requires { IsKnown (constants_of w.old) key }
    ensures { OnOk result (Adds
        (i.get_field (site_view site) to (slot base) (place_view (constants_of w.old) key) ∷ [])
        w.old w.new) }
{
    match key {
        Place::Slot(key) => w.put(Instr::GetField { to, base, key }, site),
        Place::Constant(name) => w.put(Instr::GetNamed { to, base, name }, site),
    }
}

// A slot gets a field whose key is a string.
#[tactic(auto, using(crate::proofs::Adding::behind_known, crate::proofs::Adding::last_known))]
pub(crate) fn get_named(
    w: &mut Writer,
    site: Site,
    alloc: Global,
    to: u32,
    base: u32,
    name: &Text,
) -> Result<(), Memory>
    ensures { OnOk result (Adds
        (i.get_field (site_view site) to (slot base) (known (str name.now)) ∷ [])
        w.old w.new) }
{
    let name = w.constant(Constant::Str(name.copy(alloc)?))?;
    w.put(Instr::GetNamed { to, base, name }, site)
}

// A slot gets a field of the globals.
#[tactic(auto, using(crate::proofs::Adding::behind_known, crate::proofs::Adding::last_known))]
pub(crate) fn get_global(
    w: &mut Writer,
    site: Site,
    alloc: Global,
    to: u32,
    name: &Text,
) -> Result<(), Memory>
    ensures { OnOk result (Adds
        (i.get_field (site_view site) to (known globals) (known (str name.now)) ∷ [])
        w.old w.new) }
{
    let name = w.constant(Constant::Str(name.copy(alloc)?))?;
    w.put(Instr::GetGlobal { to, name }, site)
}

/// A field of the globals gets what is in a slot (Lua 5.1 manual §2.3). Its name becomes a constant
/// of the function.
///
/// # Errors
///
/// [`Memory`] where there is no room for it, or no number for the constant.
#[tactic(auto, using(crate::proofs::Adding::behind_known, crate::proofs::Adding::last_known))]
pub fn set_global(
    w: &mut Writer,
    site: Site,
    alloc: Global,
    name: &Text,
    from: u32,
) -> Result<(), Memory>
    ensures { OnOk result (Adds
        (i.set_field (site_view site) (known globals) (known (str name.now)) (slot from) ∷ [])
        w.old w.new) }
{
    let name = w.constant(Constant::Str(name.copy(alloc)?))?;
    w.put(Instr::SetGlobal { name, from }, site)
}

/// A field of what is in a slot gets what is in another one; its key is in a third (Lua 5.1 manual
/// §2.3).
///
/// # Errors
///
/// [`Memory`] where there is no room for it.
#[tactic(auto, using(crate::proofs::Adding::one_put))]
pub fn set_field(w: &mut Writer, site: Site, base: u32, key: u32, from: u32) -> Result<(), Memory>
    ensures { OnOk result (Adds
        (i.set_field (site_view site) (slot base) (slot key) (slot from) ∷ [])
        w.old w.new) }
{
    w.put(Instr::SetField { base, key, from }, site)
}
