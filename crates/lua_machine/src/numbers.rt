//! Binary operators on two numbers.

ghost use Rattle.std.specs.Prelude.{ℤ, IfSome};
ghost use Rattle.lua_tree.specs.View.{binary_view};
ghost use Rattle.lua_machine.specs.Numbers.{GivesOfNumbers};

use lua_heap::Value;
use lua_tree::BinOp;
use lua_value::Num;

// What an operator gives of two numbers; nothing where that is an error, or for the slow case.
#[inline]
pub(crate) fn of_numbers(op: BinOp, x: Num, y: Num) -> Option<Value>
    ensures { IfSome result (λ v. GivesOfNumbers (binary_view op) x y v) }
{
    match op {
        BinOp::Add => Some(Value::Num(x.add(y).ok()?)),
        BinOp::Sub => Some(Value::Num(x.sub(y).ok()?)),
        BinOp::Mul => Some(Value::Num(x.mul(y).ok()?)),
        BinOp::Div => Some(Value::Num(x.div(y).ok()?)),
        BinOp::Mod => Some(Value::Num(x.rem(y).ok()?)),
        BinOp::Less => Some(Value::Bool(x.get() < y.get())),
        BinOp::LessEqual => Some(Value::Bool(x.get() <= y.get())),
        BinOp::Greater => Some(Value::Bool(y.get() < x.get())),
        BinOp::GreaterEqual => Some(Value::Bool(y.get() <= x.get())),
        _ => None,
    }
}
