//! The functions of `math` (Lua 5.1 manual §5.6).

ghost use Rattle.lua_meaning.specs.Math as meaning;
ghost use Rattle.lua_lib.specs.Causes.{AreMade, values_of, Comes, one_number};

use crate::call::arguments::number_argument;
use crate::call::cause::Cause;
use crate::math;
use lua_heap::{Heap, Value};
use lua_value::Num;

/// `math.abs(x)`.
pub fn abs(heap: &Heap, args: &[Value]) -> Result<Num, Cause>
    requires { AreMade heap.now args.now }
    ensures { Comes one_number heap.now (meaning.abs (values_of heap.now args.now)) result }
{
    let x = number_argument(heap, args, 0)?;
    Ok(math::abs(x))
}

/// `math.ceil(x)`, `math.floor(x)`.
pub fn whole(heap: &Heap, args: &[Value]) -> Result<Num, Cause>
    requires { AreMade heap.now args.now }
    ensures { Comes one_number heap.now (meaning.whole (values_of heap.now args.now)) result }
{
    let x = number_argument(heap, args, 0)?;
    Ok(math::whole(x))
}

/// `math.pow(x, y)`.
pub fn pow(heap: &Heap, args: &[Value]) -> Result<Num, Cause>
    requires { AreMade heap.now args.now }
    ensures { Comes one_number heap.now (meaning.pow (values_of heap.now args.now)) result }
{
    let x = number_argument(heap, args, 0)?;
    let y = number_argument(heap, args, 1)?;
    let power = math::pow(x, y)?;
    Ok(power)
}

/// `math.fmod(a, b)`.
pub fn fmod(heap: &Heap, args: &[Value]) -> Result<Num, Cause>
    requires { AreMade heap.now args.now }
    ensures { Comes one_number heap.now (meaning.fmod (values_of heap.now args.now)) result }
{
    let a = number_argument(heap, args, 0)?;
    let b = number_argument(heap, args, 1)?;
    let rest = math::fmod(a, b)?;
    Ok(rest)
}

/// `math.max(x, ...)`.
pub fn max(heap: &Heap, args: &[Value]) -> Result<Num, Cause>
    requires { AreMade heap.now args.now }
    ensures { Comes one_number heap.now (meaning.greatest (values_of heap.now args.now)) result }
{
    let mut greatest = number_argument(heap, args, 0)?;
    for n in 1..args.len() {
        let y = number_argument(heap, args, n)?;
        greatest = math::max(greatest, y);
    }
    Ok(greatest)
}

/// `math.min(x, ...)`.
pub fn min(heap: &Heap, args: &[Value]) -> Result<Num, Cause>
    requires { AreMade heap.now args.now }
    ensures { Comes one_number heap.now (meaning.least (values_of heap.now args.now)) result }
{
    let mut least = number_argument(heap, args, 0)?;
    for n in 1..args.len() {
        let y = number_argument(heap, args, n)?;
        least = math::min(least, y);
    }
    Ok(least)
}
