//! The methods of Data, and what all objects answer (LÖVE wiki, `Data`, `Object`).

ghost use Rattle.std.specs.Prelude.{◌≡◌, ℕ, [], ◌∷◌, List, MatchOption, None, Some};
ghost use Rattle.lua_meaning.specs.Value as meant;
ghost use Rattle.lua_meaning.specs.Data as meaning;
ghost use Rattle.lua_heap.specs.Value.{value_view};
ghost use Rattle.lua_heap.specs.Heap.{IsMade, store_of};
ghost use Rattle.lua_lib.specs.Causes.{AreMade, values_of, one_number, one_text};
ghost use Rattle.lua_lib.specs.Runs.{Runs};

use crate::Fault;
use crate::call::arguments::{argument, data_argument, text_argument};
use crate::call::cause::{Cause, Expected};
use crate::call::strings::copied;
use crate::signed::natural;
use crate::strings::check_length;
use itoa::Buffer;
use lua_heap::{Heap, Value};
use lua_value::Num;
use std::alloc::Global;

/// `d:getSize()`. A size that is no number is want of memory.
pub fn get_size(heap: &Heap, args: &[Value]) -> Result<Num, Cause>
    requires { AreMade heap.now args.now }
    ensures { Runs one_number heap.now heap.now
        (meaning.get_size (values_of heap.now args.now)) result }
{
    let data = data_argument(heap, args, 0)?;
    match natural(heap.data_of(data).size() as u64) {
        Some(size) => Ok(size),
        None => Err(Cause::By(Fault::Memory)),
    }
}

/// `d:getString()`.
///
/// # Errors
///
/// [`Fault::StringTooLong`] where there are over 16,777,216 bytes.
pub fn get_string(alloc: Global, heap: &Heap, args: &[Value]) -> Result<Vec<u8>, Cause>
    requires { AreMade heap.now args.now }
    ensures { Runs (λ made. one_text made.items) heap.now heap.now
        (meaning.get_string (values_of heap.now args.now)) result }
{
    let data = data_argument(heap, args, 0)?;
    let bytes = heap.data_of(data).bytes();
    check_length(bytes)?;
    let made = copied(alloc, bytes)?;
    Ok(made)
}

// The type of an object; other values have none.
fn object_type(heap: &Heap, value: &Value) -> Option<&'static [u8]>
    requires { IsMade heap.now value.now }
    ensures { MatchOption result
        (meaning.object_type (store_of heap.now) (value_view heap.now.texts value.now) ≡ None)
        (λ name. meaning.object_type (store_of heap.now) (value_view heap.now.texts value.now)
        ≡ Some name.now) }
{
    match *value {
        Value::Channel(_) => Some(b"Channel"),
        Value::Thread(_) => Some(b"Thread"),
        Value::Data(id) => match heap.data_of(id).name() {
            None => Some(b"ByteData"),
            Some(_) => Some(b"FileData"),
        },
        _ => None,
    }
}

// The type of the object that is the first argument.
fn type_argument(heap: &Heap, args: &[Value]) -> Result<&'static [u8], Cause>
    requires { AreMade heap.now args.now }
    ensures { Runs (λ name. name.now) heap.now heap.now
        (meaning.type_argument (values_of heap.now args.now)) result }
{
    let value = argument(args, 0);
    match object_type(heap, &value) {
        Some(name) => Ok(name),
        None => Err(Cause::Wants(0, Expected::Object, value)),
    }
}

fn is_data(value: &Value) -> bool
    ensures { (texts : List (List ℕ)) → result ≡ meaning.is_data (value_view texts value.now) }
{
    match *value {
        Value::Data(_) => true,
        _ => false,
    }
}

/// `o:type()`.
pub fn type_name(heap: &Heap, args: &[Value]) -> Result<&'static [u8], Cause>
    requires { AreMade heap.now args.now }
    ensures { Runs (λ name. one_text name.now) heap.now heap.now
        (meaning.type (values_of heap.now args.now)) result }
{
    let name = type_argument(heap, args)?;
    Ok(name)
}

// Whether an object, Data or not, of a type has a type's name: its own, `Object`, and `Data` where
// it is Data.
fn has_type(is_data: bool, own: &[u8], name: &[u8]) -> bool
    ensures { (value : meant.Value) → is_data ≡ meaning.is_data value
        → result ≡ meaning.has_type value own.now name.now }
{
    own == name || name == b"Object".as_slice() || (is_data && name == b"Data".as_slice())
}

/// `o:typeOf(name)`: whether it is the name of the object's type, `Object`, or `Data` where it is
/// Data.
pub fn type_of(heap: &Heap, args: &[Value]) -> Result<bool, Cause>
    requires { AreMade heap.now args.now }
    ensures { Runs (λ has. meant.flag has ∷ []) heap.now heap.now
        (meaning.type_of (values_of heap.now args.now)) result }
{
    let own = type_argument(heap, args)?;
    let mut digits = Buffer::new();
    let name = text_argument(heap, args, 1, &mut digits)?;
    let value = argument(args, 0);
    Ok(has_type(is_data(&value), own, name))
}
