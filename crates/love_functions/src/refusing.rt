//! Errors that have a text alone.

ghost use Rattle.std.specs.Prelude.{◌≡◌, ◌≢◌, ◌++◌, List, Result, IfOk};
ghost use Rattle.lua_meaning.specs.Arguments.{Lib, answer};
ghost use Rattle.lua_meaning.specs.Love.{no_file};
ghost use Rattle.lua_meaning.specs.Message.{Message};
ghost use Rattle.lua_meaning.specs.Packing as packing;
ghost use Rattle.lua_heap.specs.Heap.{HeapView};
ghost use Rattle.crossing.specs.declared.fault.PackFault.{PackFault};
ghost use Rattle.love_functions.specs.Asking as asking;
ghost use Rattle.love_functions.specs.View.{Comes, MakesCalled, Tells, AnswersFault};

use crate::Called;
use crossing::PackFault;
use love_base::Memory;
use lua_lib::call::Cause;
use std::alloc::Global;

// A text of three parts.
fn joined(alloc: Global, first: &[u8], second: &[u8], third: &[u8]) -> Result<Vec<u8>, Memory>
    ensures { IfOk result (λ text. text.items ≡ first.now ++ (second.now ++ third.now)) }
{
    let mut text = Vec::from_slice(alloc, first)?;
    text.extend_from_slice(second)?;
    text.extend_from_slice(third)?;
    Ok(text)
}

// A copy of a text.
pub(crate) fn copied(alloc: Global, text: &[u8]) -> Result<Vec<u8>, Memory>
    ensures { IfOk result (λ copy. copy.items ≡ text.now) }
{
    Ok(Vec::from_slice(alloc, text)?)
}

// That there is no file of a path.
pub(crate) fn no_file(alloc: Global, path: &[u8]) -> Result<Vec<u8>, Memory>
    ensures { IfOk result (λ text. text.items ≡ no_file path.now) }
{
    let mut text = Vec::from_slice(alloc, b"no such file: ")?;
    text.extend_from_slice(path)?;
    Ok(text)
}

// Why a value is no message.
fn pack_text(alloc: Global, fault: PackFault) -> Result<Vec<u8>, Memory>
    ensures tells { IfOk result (λ text. Tells fault text.items) }
    ensures refused { IfOk result (λ text. fault ≢ PackFault.Memory) }
{
    match fault {
        PackFault::Kind(kind) => joined(alloc, b"cannot send a ", kind.name(), b" value"),
        PackFault::Cycle => copied(alloc, b"cannot send a table that holds itself"),
        PackFault::Key(kind) => joined(alloc, b"cannot send a table with a ", kind.name(), b" key"),
        PackFault::Depth => copied(alloc, b"cannot send tables nested over 128 deep"),
        PackFault::Memory => Err(Memory),
    }
}

// An error with this text.
pub(crate) fn refused(alloc: Global, text: &[u8]) -> Result<Called, Cause>
    ensures comes { (h : HeapView) → Comes h h (answer (asking.refuses text.now)) result }
    ensures made { (h : HeapView) → MakesCalled h result }
{
    let text = copied(alloc, text)?;
    Ok(Called::Refuses(text))
}

// An error that says that there is no file of a path.
pub(crate) fn missing(alloc: Global, path: &[u8]) -> Result<Called, Cause>
    ensures comes { (h : HeapView) → Comes h h
        (answer (asking.refuses (no_file path.now))) result }
    ensures made { (h : HeapView) → MakesCalled h result }
{
    let text = no_file(alloc, path)?;
    Ok(Called::Refuses(text))
}

// An error that says why a value is no message.
pub(crate) fn unsent(alloc: Global, fault: PackFault) -> Result<Called, Cause>
    ensures one { (meaning : Result Message packing.PackFault) (next : Message → Lib asking.Called)
        (h : HeapView) → AnswersFault meaning fault
        → Comes h h (asking.packed next meaning) result }
    ensures all { (meaning : Result (List Message) packing.PackFault)
        (next : List Message → Lib asking.Called) (h : HeapView) → AnswersFault meaning fault
        → Comes h h (asking.packed next meaning) result }
    ensures made { (h : HeapView) → MakesCalled h result }
{
    let text = pack_text(alloc, fault)?;
    Ok(Called::Refuses(text))
}
