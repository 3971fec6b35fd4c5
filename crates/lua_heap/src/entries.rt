//! What a heap keeps of a table and of a function.

use crate::{CellId, TableId, Value};
use love_base::List;
use lua_table::Table;

/// A table with its metatable, where it has one (Lua 5.1 manual §2.8).
#[derive(Debug, Drop)]
pub struct TableEntry {
    pub(crate) table: Table<Value, Value>,
    pub(crate) meta: Option<TableId>,
}

/// A function that a program made (Lua 5.1 manual §2.5.9): the number of its code among those that
/// were loaded, its place in that code, and the cells of the names that it uses from outside.
#[derive(Debug, Drop)]
pub struct Function {
    pub(crate) code: u32,
    pub(crate) proto: u32,
    pub(crate) cells: List<CellId>,
}
