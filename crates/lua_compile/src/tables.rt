// Fields of tables (Lua 5.1 manual §2.5.7).
ghost use Rattle.std.specs.Prelude.{◌≡◌, ◌<◌, map, OnOk, IfOk};
ghost use Rattle.lua_tree.specs.Tree.{Fields};
ghost use Rattle.lua_tree.specs.View.{expr_view, field_view, fields_of};
ghost use Rattle.lua_code.specs.Code.{fields_code};
ghost use Rattle.lua_assembler.specs.Writing.{Adds};
ghost use Rattle.lua_compile.specs.Fields.{items, one_more, item_code, pair_code, AddsField, Counts};

use crate::expressions::{right_code, tail_code};
use love_base::{Memory, Text};
use lua_assembler::items::{put_item, put_pair, put_rest};
use lua_assembler::lists::slot_at;
use lua_assembler::operands::{is_many, next, second_next};
use lua_assembler::{Scope, Writer};
use lua_tree::{Expr, Field};

// Whether a field is a value alone.
fn is_item(field: &Field) -> bool
    ensures { (fs : Fields) → items (field_view field.now fs) ≡ one_more result (items fs) }
{
    match field {
        Field::Item(_) => true,
        Field::Keyed(_, _) => false,
    }
}

// How many fields are values alone.
fn item_count(fields: &[Field]) -> usize
    ensures { result ≡ items (fields_of (map field_view fields.now)) }
{
    let mut count = 0;
    let mut at = fields.len();
    'fields: while at > 0 {
        at -= 1;
        if is_item(&fields[at]) {
            count += 1;
        }
    }
    count
}

// The fields of the table that stands in a slot.
#[cycle(code)]
pub(crate) fn fields_code<'a>(
    w: &mut Writer,
    file: &'a Text,
    scope: &Scope<'a>,
    fields: &'a [Field],
    line: u32,
    table: u32,
) -> Result<(), Memory>
    ensures { OnOk result (Adds (fields_code (fields_of (map field_view fields.now)) line 1
        file.now scope.now table) w.old w.new) }
{
    let mut number = slot_at(1, item_count(fields))?;
    let mut at = fields.len();
    'fields: while at > 0 {
        let last = at == fields.len();
        at -= 1;
        number = field_code(w, file, scope, &fields[at], last, line, number, table)?;
    }
    Ok(())
}

// A field, and the number of its item or else of the next one behind it, which is `behind`.
#[cycle(code)]
fn field_code<'a>(
    w: &mut Writer,
    file: &'a Text,
    scope: &Scope<'a>,
    field: &'a Field,
    last: bool,
    line: u32,
    behind: u32,
    table: u32,
) -> Result<u32, Memory>
    requires { 0 < behind }
    ensures count { IfOk result (λ n. Counts (field_view field.now) behind n) }
    ensures code { IfOk result (λ n. AddsField (field_view field.now) last line behind n
        file.now scope.now table w.old w.new) }
{
    match field {
        Field::Item(value) => {
            let number = behind - 1;
            item_code(w, file, scope, value, last, line, number, table)?;
            Ok(number)
        }
        Field::Keyed(key, value) => {
            put_pair(w, scope, line, key, value, table)?;
            right_code(w, file, scope, value, second_next(table)?)?;
            right_code(w, file, scope, key, next(table)?)?;
            Ok(behind)
        }
    }
}

// A value alone.
#[cycle(code)]
fn item_code<'a>(
    w: &mut Writer,
    file: &'a Text,
    scope: &Scope<'a>,
    value: &'a Expr,
    last: bool,
    line: u32,
    number: u32,
    table: u32,
) -> Result<(), Memory>
    ensures { OnOk result (Adds (item_code last (expr_view value.now) number file.now scope.now
        table) w.old w.new) }
{
    if last && is_many(value) {
        put_rest(w, scope, line, number, table)?;
        tail_code(w, file, scope, value, next(table)?)
    } else {
        put_item(w, scope, line, value, number, table)?;
        right_code(w, file, scope, value, next(table)?)
    }
}
