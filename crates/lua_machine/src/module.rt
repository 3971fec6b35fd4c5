//! Modules (Lua 5.1 manual §5.3, `require`).

use lua_heap::{StrId, Value};

// A module that `require` was asked for: it has a value once it was loaded.
#[derive(Clone, Copy, Debug)]
pub(crate) struct Module {
    pub(crate) name: StrId,
    pub(crate) value: Option<Value>,
}
