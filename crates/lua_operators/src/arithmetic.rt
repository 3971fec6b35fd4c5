//! Arithmetic (Lua 5.1 manual §2.5.1).

ghost use Rattle.std.specs.Prelude.{◌≡◌, List};
ghost use Rattle.lua_tree.specs.Tree.{Bytes};
ghost use Rattle.lua_tree.specs.Tree.{UnOp as Operator};
ghost use Rattle.lua_heap.specs.Heap.{HeapView, store_of, IsMade};
ghost use Rattle.lua_code.specs.Doing as code;
ghost use Rattle.lua_operators.specs.Doing.{seen, does, doing_view, IsMadeDoing};
ghost use Rattle.lua_operators.specs.Events.{AreEvents, event_text};
ghost use Rattle.lua_operators.specs.Answers.{operation, event_of, arithmetic_handled};

use crate::asking::{ask_or_fail, binary_handler};
use crate::fault::of_number;
use crate::numbers::as_number;
use crate::{Doing, Event, Events, Fault, TypeName, Use};
use lua_heap::{Heap, Value};
use lua_value::{Num, NumFault};

/// An operator on two numbers that gives a number.
#[derive(Clone, Copy, Debug, PartialEq, Eq)]
pub enum Arithmetic {
    Add,
    Sub,
    Mul,
    Div,
    Mod,
    Pow,
}

impl Arithmetic {
    /// What it gives of two numbers. Takes no memory.
    ///
    /// # Errors
    ///
    /// [`NumFault`] where that is no whole number, or out of the range.
    #[inline]
    pub fn of_numbers(self, x: Num, y: Num) -> Result<Num, NumFault>
        ensures { result ≡ operation self x y }
    {
        match self {
            Arithmetic::Add => x.add(y),
            Arithmetic::Sub => x.sub(y),
            Arithmetic::Mul => x.mul(y),
            Arithmetic::Div => x.div(y),
            Arithmetic::Mod => x.rem(y),
            Arithmetic::Pow => x.pow(y),
        }
    }

    // What its handlers are for.
    #[inline]
    fn event(self) -> Event
        ensures { event_text result ≡ event_of self }
    {
        match self {
            Arithmetic::Add => Event::Add,
            Arithmetic::Sub => Event::Sub,
            Arithmetic::Mul => Event::Mul,
            Arithmetic::Div => Event::Div,
            Arithmetic::Mod => Event::Mod,
            Arithmetic::Pow => Event::Pow,
        }
    }
}

// A number that was calculated, or why there is none.
#[inline]
fn exact(number: Result<Num, NumFault>) -> Doing
    ensures doing { (texts : List Bytes) → doing_view texts result ≡ code.exact number }
    ensures made { (h : HeapView) → IsMadeDoing h result }
{
    match number {
        Ok(number) => Doing::Gives(Value::Num(number)),
        Err(fault) => Doing::Fails(of_number(fault)),
    }
}

/// Arithmetic on two values: numbers, and strings that read as numbers; or else the handler of one
/// of them. Takes no memory.
pub fn calculate(heap: &Heap, events: &Events, op: Arithmetic, a: &Value, b: &Value) -> Doing
    requires events { AreEvents heap.now.texts events.now }
    requires a { IsMade heap.now a.now }
    requires b { IsMade heap.now b.now }
    ensures doing { does heap.now result ≡ code.calculate (operation op) (event_of op)
        (store_of heap.now) (seen heap.now a.now) (seen heap.now b.now) }
    ensures made { IsMadeDoing heap.now result }
{
    let Some(x) = as_number(heap, a) else {
        return calculate_by_handler(heap, events, op, a, b, a);
    };
    let Some(y) = as_number(heap, b) else {
        return calculate_by_handler(heap, events, op, a, b, b);
    };
    exact(op.of_numbers(x, y))
}

// The same where one of the values is no number.
#[inline(never)]
fn calculate_by_handler(
    heap: &Heap,
    events: &Events,
    op: Arithmetic,
    a: &Value,
    b: &Value,
    bad: &Value,
) -> Doing
    requires events { AreEvents heap.now.texts events.now }
    requires a { IsMade heap.now a.now }
    requires b { IsMade heap.now b.now }
    ensures doing { does heap.now result ≡ arithmetic_handled (event_of op) (store_of heap.now)
        (seen heap.now a.now) (seen heap.now b.now) (seen heap.now bad.now) }
    ensures made { IsMadeDoing heap.now result }
{
    let handler = binary_handler(heap, events, op.event(), a, b);
    ask_or_fail(
        handler,
        a,
        b,
        Use::Plain,
        Fault::Arithmetic(TypeName::of(bad)),
    )
}

/// The negative of a number, and of a string that reads as one; or else a handler. Takes no memory.
pub fn negative(heap: &Heap, events: &Events, value: &Value) -> Doing
    requires events { AreEvents heap.now.texts events.now }
    requires made { IsMade heap.now value.now }
    ensures doing { does heap.now result ≡ code.unary_doing Operator.negate (store_of heap.now)
        (seen heap.now value.now) }
    ensures made { IsMadeDoing heap.now result }
{
    match as_number(heap, value) {
        Some(number) => Doing::Gives(Value::Num(number.neg())),
        None => {
            let handler = events.handler(heap, value, Event::Minus);
            let fault = Fault::Arithmetic(TypeName::of(value));
            ask_or_fail(handler, value, value, Use::Plain, fault)
        }
    }
}
