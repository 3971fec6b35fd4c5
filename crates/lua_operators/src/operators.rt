//! All operators of the syntax tree (Lua 5.1 manual §2.5).

ghost use Rattle.std.specs.Prelude.{◌≡◌, ◌≢◌, IfOk, OnErr, List};
ghost use Rattle.lua_tree.specs.Tree.{Bytes};
ghost use Rattle.lua_tree.specs.View.{unary_view, binary_view};
ghost use Rattle.lua_meaning.specs.Value.{is_true};
ghost use Rattle.lua_heap.specs.Value.{value_view};
ghost use Rattle.lua_heap.specs.Heap.{store_of, IsMade, Extends};
ghost use Rattle.lua_code.specs.Doing.{unary_doing, binary_doing};
ghost use Rattle.lua_operators.specs.Doing.{seen, does, IsMadeDoing, UnlessGiven};
ghost use Rattle.lua_operators.specs.Events.{AreEvents};
ghost use Rattle.lua_operators.specs.Answers.{IsTooLarge};

use crate::arithmetic::{Arithmetic, calculate, negative};
use crate::comparison::{less, up_to};
use crate::concatenation::concatenate;
use crate::equality::{equal, unequal};
use crate::sizes::size;
use crate::{Doing, Events};
use love_base::Memory;
use lua_heap::{Heap, Value};
use lua_tree::{BinOp, UnOp};

/// Whether a value is neither nil nor false (Lua 5.1 manual §2.2).
#[inline]
pub fn is_true(value: &Value) -> bool
    ensures { (texts : List Bytes) → result ≡ is_true (value_view texts value.now) }
{
    !matches!(*value, Value::Nil | Value::Bool(false))
}

/// What a unary operator comes to. Takes no memory.
///
/// # Errors
///
/// [`Memory`] where a length is no number: over 99,999,999,999,999.
pub fn unary(heap: &Heap, events: &Events, op: UnOp, value: &Value) -> Result<Doing, Memory>
    requires events { AreEvents heap.now.texts events.now }
    requires made { IsMade heap.now value.now }
    ensures doing { IfOk result (λ doing. does heap.now doing ≡ unary_doing (unary_view op)
        (store_of heap.now) (seen heap.now value.now)) }
    ensures made { IfOk result (λ doing. IsMadeDoing heap.now doing) }
    ensures refused { OnErr result (IsTooLarge (store_of heap.now) (seen heap.now value.now)) }
{
    match op {
        UnOp::Not => Ok(Doing::Gives(Value::Bool(!is_true(value)))),
        UnOp::Length => size(heap, value),
        UnOp::Minus => Ok(negative(heap, events, value)),
    }
}

/// What a binary operator comes to whose both operands are evaluated; `and` and `or` give the second
/// one. Only `..` takes memory: it makes its string in `buffer`, whose content is lost.
///
/// # Errors
///
/// [`Memory`] where there is no room for the string of `..`. The heap is then as it was.
pub fn binary(
    heap: &mut Heap,
    events: &Events,
    buffer: &mut Vec<u8>,
    op: BinOp,
    a: &Value,
    b: &Value,
) -> Result<Doing, Memory>
    requires events { AreEvents heap.old.texts events.now }
    requires a { IsMade heap.old a.now }
    requires b { IsMade heap.old b.now }
    ensures doing { IfOk result (λ doing. does heap.new doing ≡ binary_doing (binary_view op)
        (store_of heap.old) (seen heap.old a.now) (seen heap.old b.now)) }
    ensures made { IfOk result (λ doing. IsMadeDoing heap.new doing) }
    ensures store { store_of heap.new ≡ store_of heap.old }
    ensures functions { heap.new.functions ≡ heap.old.functions }
    ensures same { IfOk result (λ doing. UnlessGiven doing (heap.new ≡ heap.old)) }
    ensures refused { OnErr result (heap.new ≡ heap.old) }
    ensures concat { OnErr result (op ≡ BinOp.Concat) }
    ensures extends { Extends heap.old heap.new }
{
    match op {
        BinOp::Concat => concatenate(heap, events, buffer, a, b),
        op => Ok(binary_of(heap, events, op, a, b)),
    }
}

// The same of all operators but `..`.
fn binary_of(heap: &Heap, events: &Events, op: BinOp, a: &Value, b: &Value) -> Doing
    requires events { AreEvents heap.now.texts events.now }
    requires a { IsMade heap.now a.now }
    requires b { IsMade heap.now b.now }
    requires other { op ≢ BinOp.Concat }
    ensures doing { does heap.now result ≡ binary_doing (binary_view op)
        (store_of heap.now) (seen heap.now a.now) (seen heap.now b.now) }
    ensures made { IsMadeDoing heap.now result }
{
    match op {
        BinOp::Or | BinOp::And => Doing::Gives(*b),
        BinOp::Less => less(heap, events, a, b),
        BinOp::Greater => less(heap, events, b, a),
        BinOp::LessEqual => up_to(heap, events, a, b),
        BinOp::GreaterEqual => up_to(heap, events, b, a),
        BinOp::Equal => equal(heap, events, a, b),
        BinOp::NotEqual => unequal(heap, events, a, b),
        BinOp::Add => calculate(heap, events, Arithmetic::Add, a, b),
        BinOp::Sub => calculate(heap, events, Arithmetic::Sub, a, b),
        BinOp::Mul => calculate(heap, events, Arithmetic::Mul, a, b),
        BinOp::Div => calculate(heap, events, Arithmetic::Div, a, b),
        BinOp::Mod => calculate(heap, events, Arithmetic::Mod, a, b),
        BinOp::Pow => calculate(heap, events, Arithmetic::Pow, a, b),
        BinOp::Concat => unreachable!(),
    }
}
