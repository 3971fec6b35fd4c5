//! Basic functions (Lua 5.1 manual §5.1).

ghost use Rattle.std.specs.Prelude.{◌≡◌, ◌<◌, [], ◌∷◌, List, map, IfOk, length, pos};
ghost use Rattle.lua_tree.specs.Tree.{Bytes};
ghost use Rattle.lua_meaning.specs.Native as natives;
ghost use Rattle.lua_meaning.specs.Value as meant;
ghost use Rattle.lua_meaning.specs.Basic as meaning;
ghost use Rattle.lua_meaning.specs.Basic.{number_value};
ghost use Rattle.lua_heap.specs.Value.{value_view};
ghost use Rattle.lua_lib.specs.Outcome.{Gives};
ghost use Rattle.lua_lib.specs.Causes.{AreMade, values_of, Comes, one_text};

use crate::basic;
use crate::call::arguments::{
    argument, as_number, number_or_natural, table_argument, text_argument,
};
use crate::call::cause::Cause;
use crate::call::types::type_name;
use crate::signed::{Signed, split_sign};
use itoa::Buffer;
use lua_heap::{Heap, TableId, Value};
use lua_value::Num;

pub(crate) fn zero() -> Num
    ensures { result ≡ pos 0 }
{
    Num::new(0).unwrap()
}

/// `collectgarbage()`: 0, since nothing is ever collected.
pub fn collectgarbage() -> Num
    ensures { (values : List meant.Value) → Gives (meaning.collectgarbage values)
        (meant.num result ∷ []) }
{
    zero()
}

/// `rawequal(a, b)`: whether the values are the same one.
pub fn rawequal(heap: &Heap, args: &[Value]) -> bool
    requires { AreMade heap.now args.now }
    ensures { Gives (meaning.rawequal (values_of heap.now args.now)) (meant.flag result ∷ []) }
{
    let a = argument(args, 0);
    let b = argument(args, 1);
    heap.is_same(a, b)
}

/// `type(v)`: the name of the value's type.
pub fn type_of(args: &[Value]) -> &'static [u8]
    ensures { (texts : List Bytes) →
        Gives (meaning.type (map (value_view texts) args.now)) (one_text result.now) }
{
    let value = argument(args, 0);
    type_name(&value)
}

/// `pairs(t)`: the table, which `next` walks from nil on.
///
/// # Errors
///
/// [`Cause::Wants`] where it is no table.
pub fn pairs(heap: &Heap, args: &[Value]) -> Result<TableId, Cause>
    requires { AreMade heap.now args.now }
    ensures given { Comes (λ table. meant.native natives.next ∷ meant.table table ∷ meant.nil ∷ [])
        heap.now (meaning.pairs (values_of heap.now args.now)) result }
    ensures made { IfOk result (λ table. table < length heap.now.tables) }
{
    let table = table_argument(heap, args, 0)?;
    Ok(table)
}

/// `ipairs(t)`: the table, whose positions are walked from 0 on.
///
/// # Errors
///
/// [`Cause::Wants`] where it is no table.
pub fn ipairs(heap: &Heap, args: &[Value]) -> Result<TableId, Cause>
    requires { AreMade heap.now args.now }
    ensures given { Comes (λ table. meant.native natives.ipairs_walk ∷ meant.table table
        ∷ meant.num (pos 0) ∷ [])
        heap.now (meaning.ipairs (values_of heap.now args.now)) result }
    ensures made { IfOk result (λ table. table < length heap.now.tables) }
{
    let table = table_argument(heap, args, 0)?;
    Ok(table)
}

// Whether a base is 10.
fn is_ten(base: Num) -> bool
    ensures { result ≡ meant.same (meant.num base) (meant.num (pos 10)) }
{
    match split_sign(base) {
        Signed::Plus(n) => n == 10,
        Signed::Minus(_) => false,
    }
}

/// `tonumber(v, base)`: the number that v stands for in a base, which is 10 where none is given;
/// `None` where it stands for none.
///
/// # Errors
///
/// [`Fault::BaseOutOfRange`](crate::Fault::BaseOutOfRange) where the base isn't from 2 to 36.
pub fn tonumber(heap: &Heap, args: &[Value]) -> Result<Option<Num>, Cause>
    requires { AreMade heap.now args.now }
    ensures { Comes (λ number. number_value number ∷ []) heap.now
        (meaning.tonumber (values_of heap.now args.now)) result }
{
    let base = number_or_natural(heap, args, 1, 10)?;
    if is_ten(base) {
        let value = argument(args, 0);
        return Ok(as_number(heap, &value));
    }
    let mut digits = Buffer::new();
    let text = text_argument(heap, args, 0, &mut digits)?;
    let number = basic::tonumber(text, base)?;
    Ok(number)
}
