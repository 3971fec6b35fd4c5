//! The types of values, and which count as true.

ghost use Rattle.std.specs.Prelude.{◌≡◌, List};
ghost use Rattle.lua_tree.specs.Tree.{Bytes};
ghost use Rattle.lua_meaning.specs.Value as meant;
ghost use Rattle.lua_meaning.specs.Text.{type_name};
ghost use Rattle.lua_heap.specs.Value.{value_view};

use lua_heap::Value;

/// What `type(v)` gives (Lua 5.1 manual §5.1), and what errors say of a value.
pub fn type_name(value: &Value) -> &'static [u8]
    ensures { (texts : List Bytes) → result.now ≡ type_name (value_view texts value.now) }
{
    match *value {
        Value::Nil => b"nil",
        Value::Bool(_) => b"boolean",
        Value::Num(_) => b"number",
        Value::Str(_) => b"string",
        Value::Table(_) => b"table",
        Value::Func(_) => b"function",
        Value::Native(_) => b"function",
        Value::Channel(_) => b"userdata",
        Value::Thread(_) => b"userdata",
        Value::Data(_) => b"userdata",
    }
}

/// Whether a value is one but nil and false (Lua 5.1 manual §2.2).
pub(crate) fn is_true(value: &Value) -> bool
    ensures { (texts : List Bytes) → result ≡ meant.is_true (value_view texts value.now) }
{
    match *value {
        Value::Nil => false,
        Value::Bool(flag) => flag,
        _ => true,
    }
}
