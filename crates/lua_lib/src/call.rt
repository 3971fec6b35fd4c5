//! The functions of the library over the arguments of a call.

ghost use Rattle.std.specs.Prelude.{◌≡◌, IfOk, IsTrue, IsFalse, Err};
ghost use Rattle.lua_meaning.specs.Data as datas;
ghost use Rattle.lua_meaning.specs.Library.{library};
ghost use Rattle.lua_heap.specs.Native.{native_view};
ghost use Rattle.lua_heap.specs.Heap.{Extends};
ghost use Rattle.lua_lib.specs.declared.call.cause.LibFault.TheVariants.{Elsewhere};
ghost use Rattle.lua_lib.specs.Causes.{AreMade, values_of};
ghost use Rattle.lua_lib.specs.Runs.{Calls, Called};
ghost use Rattle.lua_lib.specs.Here.{is_here, CalledIf};

mod answers;
pub mod arguments;
pub mod basic;
pub mod bytes;
mod cause;
pub mod contents;
pub mod data;
pub mod fields;
pub mod formats;
mod items;
pub mod joins;
pub mod keys;
pub mod math;
pub mod metatables;
pub mod sorts;
pub mod strings;
pub mod tables;
mod texts;
pub mod tuples;
mod types;

use answers::{
    datum, flag, made_text, nothing, number, number_or_nil, one, one_or_none, pair, pair_or_one,
    places, some, table, text, values, walk,
};
pub use cause::{Cause, Expected, LibFault};
use lua_heap::{Heap, Native, Value};
use std::alloc::Global;
pub use types::type_name;

/// What a function of the library gives for these arguments.
///
/// # Errors
///
/// [`LibFault::Fails`] with the function's cause. An error that the definition has leaves tables,
/// cells, metatables and Data as they were. Want of memory is a cause that no definition has: all
/// that the heap had made is still there then, and no more is said of it.
///
/// [`LibFault::Elsewhere`] where the function is one of the machine: it calls functions of the
/// program, prints, runs files or asks what all states share. The heap is then as it was.
pub fn call(
    alloc: Global,
    heap: &mut Heap,
    native: Native,
    args: &[Value],
) -> Result<Vec<Value>, LibFault>
    requires { AreMade heap.old args.now }
    ensures calls { IsTrue (is_here (native_view native))
        → Calls (λ made. made.items) heap.old heap.new
        (library (native_view native) (values_of heap.old args.now)) result }
    ensures elsewhere { IsFalse (is_here (native_view native)) → result ≡ Err Elsewhere }
    ensures untouched { IsFalse (is_here (native_view native)) → heap.new ≡ heap.old }
    ensures made { IfOk result (λ made. AreMade heap.new made.items) }
    ensures extends { Extends heap.old heap.new }
    ensures functions { heap.new.functions ≡ heap.old.functions }
{
    given(alloc, heap, native, args)
}

// The same, as one fact: what a function that is here gives, or that it isn't.
fn given(
    alloc: Global,
    heap: &mut Heap,
    native: Native,
    args: &[Value],
) -> Result<Vec<Value>, LibFault>
    requires { AreMade heap.old args.now }
    ensures { CalledIf (is_here (native_view native)) (λ made. made.items) heap.old heap.new
        (library (native_view native) (values_of heap.old args.now)) result }
{
    match native {
        Native::Assert => values(tuples::assert(alloc, heap, args)),
        Native::CollectGarbage => number(alloc, Ok(basic::collectgarbage())),
        Native::GetMetatable => one(alloc, metatables::getmetatable(heap, args)),
        Native::Ipairs => walk(
            alloc,
            Native::IpairsWalk,
            basic::ipairs(heap, args),
            &Value::Num(basic::zero()),
        ),
        Native::IpairsWalk => pair(alloc, fields::walk_positions(heap, args)),
        Native::Next => pair_or_one(alloc, fields::next(heap, args)),
        Native::Pairs => walk(alloc, Native::Next, basic::pairs(heap, args), &Value::Nil),
        Native::RawEqual => flag(alloc, Ok(basic::rawequal(heap, args))),
        Native::RawGet => one(alloc, fields::rawget(heap, args)),
        Native::RawSet => table(alloc, fields::rawset(heap, args)),
        Native::Select => values(tuples::select(alloc, heap, args)),
        Native::SetMetatable => table(alloc, metatables::setmetatable(heap, args)),
        Native::ToNumber => number_or_nil(alloc, basic::tonumber(heap, args)),
        Native::TypeName => text(alloc, heap, basic::type_of(args)),
        Native::Unpack => values(tuples::unpack(alloc, heap, args)),
        Native::StringByte => values(bytes::byte(alloc, heap, args)),
        Native::StringChar => made_text(alloc, heap, bytes::char(alloc, heap, args)),
        Native::StringFind => places(alloc, bytes::find(heap, args)),
        Native::StringFormat => made_text(alloc, heap, formats::format(alloc, heap, args)),
        Native::StringLen => number(alloc, strings::len(heap, args)),
        Native::StringLower => made_text(alloc, heap, strings::lower(alloc, heap, args)),
        Native::StringRep => made_text(alloc, heap, strings::rep(alloc, heap, args)),
        Native::StringReverse => made_text(alloc, heap, strings::reverse(alloc, heap, args)),
        Native::StringSub => made_text(alloc, heap, strings::sub(alloc, heap, args)),
        Native::StringUpper => made_text(alloc, heap, strings::upper(alloc, heap, args)),
        Native::TableConcat => made_text(alloc, heap, joins::concat(alloc, heap, args)),
        Native::TableInsert => nothing(alloc, tables::insert(alloc, heap, args)),
        Native::TableMaxn => number(alloc, keys::maxn(heap, args)),
        Native::TableRemove => one_or_none(alloc, tables::remove(alloc, heap, args)),
        Native::TableSort => nothing(alloc, sorts::sort(alloc, heap, args)),
        Native::MathAbs => number(alloc, math::abs(heap, args)),
        Native::MathCeil => number(alloc, math::whole(heap, args)),
        Native::MathFloor => number(alloc, math::whole(heap, args)),
        Native::MathFmod => number(alloc, math::fmod(heap, args)),
        Native::MathMax => number(alloc, math::max(heap, args)),
        Native::MathMin => number(alloc, math::min(heap, args)),
        Native::MathPow => number(alloc, math::pow(heap, args)),
        Native::LoveDataNewByteData => datum(alloc, contents::new_byte_data(alloc, heap, args)),
        Native::LoveDataNewDataView => datum(alloc, contents::new_data_view(heap, args)),
        Native::LoveEventPump => some(alloc, &[]),
        Native::DataGetFilename => {
            made_text(alloc, heap, contents::get_filename(alloc, heap, args))
        }
        Native::DataGetSize => number(alloc, data::get_size(heap, args)),
        Native::DataGetString => made_text(alloc, heap, data::get_string(alloc, heap, args)),
        Native::ObjectType => object_type(alloc, heap, args),
        Native::ObjectTypeOf => flag(alloc, data::type_of(heap, args)),
        // These call functions of the program, print, or run files.
        Native::Error | Native::Pcall | Native::Print | Native::Require | Native::ToString => Err(
            LibFault::Elsewhere,
        ),
        // These ask what all states share.
        Native::LoveThreadGetChannel
        | Native::LoveThreadNewChannel
        | Native::LoveThreadNewThread
        | Native::LoveFilesystemNewFileData
        | Native::LoveFilesystemRead
        | Native::LoveEventClear
        | Native::LoveEventPoll
        | Native::LoveEventPush
        | Native::LoveEventQuit
        | Native::PollWalk => Err(LibFault::Elsewhere),
        Native::ChannelClear
        | Native::ChannelDemand
        | Native::ChannelGetCount
        | Native::ChannelHasRead
        | Native::ChannelPeek
        | Native::ChannelPerformAtomic
        | Native::ChannelPop
        | Native::ChannelPush
        | Native::ChannelSupply => Err(LibFault::Elsewhere),
        Native::ThreadGetError
        | Native::ThreadIsRunning
        | Native::ThreadStart
        | Native::ThreadWait => Err(LibFault::Elsewhere),
    }
}

// `o:type()`: the name of the object's type, which gets an id.
fn object_type(alloc: Global, heap: &mut Heap, args: &[Value]) -> Result<Vec<Value>, LibFault>
    requires { AreMade heap.old args.now }
    ensures { Called (λ made. made.items) heap.old heap.new
        (datas.type (values_of heap.old args.now)) result }
{
    match data::type_name(heap, args) {
        Ok(name) => text(alloc, heap, name),
        Err(cause) => Err(LibFault::Fails(cause)),
    }
}
