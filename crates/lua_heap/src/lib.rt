//! What one state of Lua holds: values, strings, tables, cells, functions and Data.
#![tactic(auto)]

mod entries;
mod heap;
mod id;
mod index;
mod library;
mod methods;
mod native;
mod raw;
#[cfg(test)]
mod tests;
mod texts;
mod value;
mod walk;

pub use heap::Heap;
pub use id::{CellId, DataId, FuncId, StrId, TableId};
pub use index::{Lookup, Store};
pub use native::Native;
pub use value::Value;
