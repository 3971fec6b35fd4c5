// The locals that a function finds around it (Lua 5.1 manual §2.6).
ghost use Rattle.std.specs.Prelude.{◌≡◌, IfOk, OnOk};
ghost use Rattle.lua_meaning.specs.Names.{is_captured};
ghost use Rattle.lua_code.specs.Scope.{declared, kind_of, cell_names, cell_places, around, named};
ghost use Rattle.lua_assembler.specs.Seats.{entry_view};

use love_base::{Memory, Text};
use lua_assembler::{Entry, Scope, Seat};
use lua_upvalues::{Names, is_among};
use std::alloc::Global;

// New locals in scope, of which `captured` has the names that functions in their scope use.
pub(crate) fn declare<'a>(
    scope: &mut Scope<'a>,
    names: &'a [Text],
    captured: &Names,
) -> Result<(), Memory>
    ensures { OnOk result (scope.new ≡ declared names.now captured.now scope.old) }
{
    let mut at = 0;
    'names: while at < names.len() {
        let name = &names[at];
        at += 1;
        scope.add(local(name, &names[at..], captured))?;
    }
    Ok(())
}

// A local that stands in a cell where a function names it and none behind it in its list hides it.
pub(crate) fn local<'a>(name: &'a Text, behind: &[Text], captured: &Names) -> Entry<'a>
    ensures { entry_view result
        ≡ named name.now (kind_of (is_captured behind.now captured.now name.now)) }
{
    if captured.has(name) && !is_among(behind, name) {
        Entry::Cell(name)
    } else {
        Entry::Slot(name)
    }
}

// Where the cells of some names are, the first one last.
pub(crate) fn places(alloc: Global, scope: &Scope, names: &Names) -> Result<Vec<u32>, Memory>
    ensures { IfOk result (λ places. places.items ≡ cell_places scope.now names.now) }
{
    let mut places = Vec::new(alloc);
    for name in names.backwards() {
        if let Some(Seat::Cell(cell)) = scope.seat(*name) {
            places.push(cell)?;
        }
    }
    Ok(places)
}

// What a function has in scope that holds the cells of some names.
pub(crate) fn scope_inside<'a>(
    alloc: Global,
    scope: &Scope,
    names: &Names<'a>,
) -> Result<Scope<'a>, Memory>
    ensures { IfOk result (λ inside. inside ≡ around (cell_names scope.now names.now)) }
{
    let mut inside = Scope::new(alloc);
    for name in names.backwards() {
        if let Some(Seat::Cell(_)) = scope.seat(*name) {
            inside.add(Entry::Outside(*name))?;
        }
    }
    Ok(inside)
}
