//! How functions read arguments that only functions of LÖVE have.

ghost use Rattle.std.specs.Prelude.{◌≡◌, drop, pos, IfOk};
ghost use Rattle.lua_meaning.specs.LoveArguments as meaning;
ghost use Rattle.lua_heap.specs.Heap.{HeapView};
ghost use Rattle.lua_lib.specs.Causes.{AreMade, values_of, Comes};

use love_base::Memory;
use lua_heap::{Heap, Value};
use lua_lib::Fault;
use lua_lib::call::Cause;
use lua_lib::call::arguments::{argument, number_argument, number_or};
use lua_value::Num;
use std::alloc::Global;

// The longest wait that has a limit, in seconds.
const LONGEST: i64 = 1_000_000;

// The greatest exit status.
const GREATEST_STATUS: i64 = 63;

// An argument's number of seconds.
fn seconds(n: usize, number: Num) -> Result<Option<u32>, Cause>
    ensures { (h : HeapView) → Comes (λ limit. limit) h (meaning.seconds n number) result }
{
    let seconds = number.get();
    if seconds < 0 || seconds > LONGEST {
        return Err(Cause::By(Fault::NotSeconds(n)));
    }
    Ok(Some(seconds as u32))
}

// The limit of a wait in whole seconds, where there is one.
pub(crate) fn limit_argument(heap: &Heap, args: &[Value], n: usize) -> Result<Option<u32>, Cause>
    requires { AreMade heap.now args.now }
    ensures { Comes (λ limit. limit) heap.now
        (meaning.limit_argument n (values_of heap.now args.now)) result }
{
    match argument(args, n) {
        Value::Nil => Ok(None),
        _ => {
            let number = number_argument(heap, args, n)?;
            seconds(n, number)
        }
    }
}

// The status that a number is.
fn status(n: usize, number: Num) -> Result<Num, Cause>
    ensures { (h : HeapView) → Comes (λ status. status) h (meaning.status n number) result }
{
    if number.get() < 0 || number.get() > GREATEST_STATUS {
        return Err(Cause::By(Fault::NoStatus(n)));
    }
    Ok(number)
}

// 0, where no status is given.
fn zero() -> Num
    ensures { result ≡ pos 0 }
{
    Num::new(0).unwrap()
}

// An exit status.
pub(crate) fn status_argument(heap: &Heap, args: &[Value], n: usize) -> Result<Num, Cause>
    requires { AreMade heap.now args.now }
    ensures { Comes (λ status. status) heap.now
        (meaning.status_argument n (values_of heap.now args.now)) result }
{
    let number = number_or(heap, args, n, zero())?;
    status(n, number)
}

// Arguments but for the first one.
pub(crate) fn behind_one(args: &[Value]) -> &[Value]
    ensures rest { result.now ≡ drop 1 args.now }
    ensures made { (h : HeapView) → AreMade h args.now → AreMade h result.now }
{
    let from = args.len().min(1);
    &args[from..]
}

// Arguments but for the first two.
pub(crate) fn behind_two(alloc: Global, args: &[Value]) -> Result<Vec<Value>, Memory>
    ensures rest { IfOk result (λ rest. rest.items ≡ drop 2 args.now) }
    ensures made { IfOk result (λ rest. (h : HeapView) → AreMade h args.now → AreMade h rest.items) }
{
    let from = args.len().min(2);
    Ok(Vec::from_slice(alloc, &args[from..])?)
}
