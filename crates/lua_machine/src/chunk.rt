//! A chunk's code as a machine has it.

use love_base::List;
use lua_code::Code;
use lua_heap::Value;

// The code of a chunk, with the constants of each of its functions as values of the heap.
#[derive(Debug, Drop)]
pub(crate) struct Chunk<'a> {
    pub(crate) code: &'a Code,
    pub(crate) constants: Vec<List<Value>>,
}
