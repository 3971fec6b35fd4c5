//! The names of types.

ghost use Rattle.std.specs.Prelude.{◌≡◌, List};
ghost use Rattle.lua_tree.specs.Tree.{Bytes};
ghost use Rattle.lua_meaning.specs.Text.{type_name};
ghost use Rattle.lua_heap.specs.Value.{value_view};
ghost use Rattle.lua_operators.specs.Faults.{type_text};

use lua_heap::Value;

/// A type of values, as `type` names it (Lua 5.1 manual §5.1).
#[derive(Clone, Copy, Debug, PartialEq, Eq)]
pub enum TypeName {
    Nil,
    Boolean,
    Number,
    String,
    Table,
    Function,
    /// Channels, Threads and Data.
    Userdata,
}

impl TypeName {
    /// The type of a value.
    pub fn of(value: &Value) -> TypeName
        ensures { (texts : List Bytes) → type_text result ≡ type_name (value_view texts value.now) }
    {
        match *value {
            Value::Nil => TypeName::Nil,
            Value::Bool(_) => TypeName::Boolean,
            Value::Num(_) => TypeName::Number,
            Value::Str(_) => TypeName::String,
            Value::Table(_) => TypeName::Table,
            Value::Func(_) => TypeName::Function,
            Value::Native(_) => TypeName::Function,
            Value::Channel(_) => TypeName::Userdata,
            Value::Thread(_) => TypeName::Userdata,
            Value::Data(_) => TypeName::Userdata,
        }
    }

    /// Its name.
    pub fn text(self) -> &'static [u8]
        ensures { result.now ≡ type_text self }
    {
        match self {
            TypeName::Nil => b"nil",
            TypeName::Boolean => b"boolean",
            TypeName::Number => b"number",
            TypeName::String => b"string",
            TypeName::Table => b"table",
            TypeName::Function => b"function",
            TypeName::Userdata => b"userdata",
        }
    }
}
