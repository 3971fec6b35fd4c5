//! Concatenation (Lua 5.1 manual §2.5.4).

ghost use Rattle.std.specs.Prelude.{◌≡◌, IfOk, OnErr};
ghost use Rattle.lua_meaning.specs.Text.{as_text};
ghost use Rattle.lua_heap.specs.Heap.{store_of, IsMade, Extends};
ghost use Rattle.lua_code.specs.Doing.{by_texts};
ghost use Rattle.lua_operators.specs.Doing.{seen, does, IsMadeDoing, UnlessGiven};
ghost use Rattle.lua_operators.specs.Events.{AreEvents};
ghost use Rattle.lua_operators.specs.Answers.{concat_handled};

use crate::asking::{ask_or_fail, binary_handler};
use crate::texts::put_text;
use crate::{Doing, Event, Events, Fault, TypeName, Use};
use love_base::Memory;
use lua_heap::{Heap, Value};

// The greatest length of a string.
const LONGEST_STRING: usize = 16_777_216;

/// Two values as one string: strings, and numbers as their digits; or else the handler of one of
/// them. The string is made in `buffer`, whose content is lost.
///
/// Takes time in the length of the string.
///
/// # Errors
///
/// [`Memory`] where there is no room for the string. The heap is then as it was.
pub fn concatenate(
    heap: &mut Heap,
    events: &Events,
    buffer: &mut Vec<u8>,
    a: &Value,
    b: &Value,
) -> Result<Doing, Memory>
    requires events { AreEvents heap.old.texts events.now }
    requires a { IsMade heap.old a.now }
    requires b { IsMade heap.old b.now }
    ensures doing { IfOk result (λ doing. does heap.new doing ≡ by_texts (store_of heap.old)
        (seen heap.old a.now) (seen heap.old b.now)
        (as_text (seen heap.old a.now)) (as_text (seen heap.old b.now))) }
    ensures made { IfOk result (λ doing. IsMadeDoing heap.new doing) }
    ensures store { store_of heap.new ≡ store_of heap.old }
    ensures functions { heap.new.functions ≡ heap.old.functions }
    ensures same { IfOk result (λ doing. UnlessGiven doing (heap.new ≡ heap.old)) }
    ensures refused { OnErr result (heap.new ≡ heap.old) }
    ensures extends { Extends heap.old heap.new }
{
    buffer.clear();
    let is_left_text = put_text(heap, a, buffer)?;
    if !is_left_text {
        return Ok(concatenate_by_handler(heap, events, a, b, a));
    }
    let is_right_text = put_text(heap, b, buffer)?;
    if !is_right_text {
        return Ok(concatenate_by_handler(heap, events, a, b, b));
    }
    if buffer.len() > LONGEST_STRING {
        return Ok(Doing::Fails(Fault::StringTooLong));
    }
    let id = heap.intern(buffer.as_slice())?;
    Ok(Doing::Gives(Value::Str(id)))
}

// The same where one of the values is no string and no number.
#[inline(never)]
fn concatenate_by_handler(heap: &Heap, events: &Events, a: &Value, b: &Value, bad: &Value) -> Doing
    requires events { AreEvents heap.now.texts events.now }
    requires a { IsMade heap.now a.now }
    requires b { IsMade heap.now b.now }
    ensures doing { does heap.now result ≡ concat_handled (store_of heap.now)
        (seen heap.now a.now) (seen heap.now b.now) (seen heap.now bad.now) }
    ensures made { IsMadeDoing heap.now result }
{
    let handler = binary_handler(heap, events, Event::Concat, a, b);
    ask_or_fail(
        handler,
        a,
        b,
        Use::Plain,
        Fault::Concatenate(TypeName::of(bad)),
    )
}
