//! Values.

use crate::{DataId, FuncId, Native, StrId, TableId};
use love_base::ChannelNo;
use lua_table::Position;
use lua_value::Num;
use std::hash::{Hash, Hasher};

/// A value (Lua 5.1 manual §2.2). Strings, tables, functions that a program made and Data stand in
/// the heap that made them; a Channel and a Thread are their numbers (LÖVE wiki, `love.thread`).
///
/// Two values of one heap are the same where `==` says so: it has one id for one text.
#[derive(Clone, Copy, Debug, PartialEq, Eq)]
pub enum Value {
    Nil,
    Bool(bool),
    Num(Num),
    Str(StrId),
    Table(TableId),
    Func(FuncId),
    Native(Native),
    Channel(ChannelNo),
    Thread(u32),
    Data(DataId),
}

// The last number that is a position of a table.
const LAST_POSITION: i64 = 99_999_999_999_999;

impl Position for Value {
    ghost use Rattle.std.specs.Prelude.{◌≡◌, ℕ, ◌≤◌, ◌&&◌, Option, None, Some, pos, negsuc, nat_le, if◌then◌else◌};
    ghost use Rattle.std.proofs.Common.{rules};
    ghost use Rattle.std.proofs.lemmas.Grind.{common_steps};
    ghost use Rattle.lua_heap.specs.Position.{value_at, position_of_value};
    ghost use Rattle.lua_heap.specs.Alike.{alike};

    ghost last_position = { 99999999999999 };

    ghost at_position = { value_at };

    ghost position_of = { position_of_value };

    #[inline]
    fn at(n: u64) -> Option<Self> {
        if n == 0 || n > LAST_POSITION as u64 {
            return None;
        }
        Some(Value::Num(Num::new(n as i64)?))
    }

    #[inline]
    fn position(&self) -> Option<u64> {
        match *self {
            Value::Num(n) if n.get() > 0 => Some(n.get() as u64),
            _ => None,
        }
    }

    ghost equal_is_same = { alike };

    ghost numbered = { Prim.search (rules, common_steps) };

    ghost inverse = { Prim.search (rules, common_steps) };
}

// A number, and what has a place, is hashed as that one word; so the keys of a table take one step
// of its hasher each.
impl Hash for Value {
    ghost use Rattle.std.proofs.Common.{rules};
    ghost use Rattle.lua_heap.specs.Position.{value_input};

    ghost hash_input = { value_input };

    ghost respects_eq = { Prim.search rules };

    #[inline]
    fn hash<H: Hasher>(&self, state: &mut H) {
        match *self {
            Value::Num(n) => state.write_i64(n.get()),
            Value::Str(id) => state.write_usize(id.place()),
            Value::Table(id) => state.write_usize(id.place()),
            Value::Func(id) => state.write_usize(id.place()),
            Value::Data(id) => state.write_usize(id.place()),
            Value::Channel(channel) => state.write_u32(channel.get()),
            Value::Thread(thread) => state.write_u32(thread),
            Value::Bool(b) => b.hash(state),
            // A table with many functions of the library as its keys is rare.
            Value::Native(_) => state.write_u8(0),
            Value::Nil => {}
        }
    }
}
