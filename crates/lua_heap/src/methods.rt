//! The methods of objects.

ghost use Rattle.std.specs.Prelude.{◌≡◌, map};
ghost use Rattle.std.specs.Option.{option_map};
ghost use Rattle.lua_meaning.specs.Native.{named};
ghost use Rattle.lua_meaning.specs.Handlers.{method_named};
ghost use Rattle.lua_heap.specs.Native.{native_view};
ghost use Rattle.lua_heap.specs.Value.{value_view};
ghost use Rattle.lua_heap.specs.Heap.{IsMade};

use crate::{Heap, Native, Value};

// The methods of Channels (LÖVE wiki, `Channel`), then those of every object.
pub(crate) const CHANNEL_METHODS: [Native; 11] = [
    Native::ChannelClear,
    Native::ChannelDemand,
    Native::ChannelGetCount,
    Native::ChannelHasRead,
    Native::ChannelPeek,
    Native::ChannelPerformAtomic,
    Native::ChannelPop,
    Native::ChannelPush,
    Native::ChannelSupply,
    Native::ObjectType,
    Native::ObjectTypeOf,
];

// The methods of Threads (LÖVE wiki, `Thread`), then those of every object.
pub(crate) const THREAD_METHODS: [Native; 6] = [
    Native::ThreadGetError,
    Native::ThreadIsRunning,
    Native::ThreadStart,
    Native::ThreadWait,
    Native::ObjectType,
    Native::ObjectTypeOf,
];

// The methods of Data from a file (LÖVE wiki, `FileData`), then those of every object.
pub(crate) const FILE_DATA_METHODS: [Native; 5] = [
    Native::DataGetFilename,
    Native::DataGetSize,
    Native::DataGetString,
    Native::ObjectType,
    Native::ObjectTypeOf,
];

// The methods of other Data (LÖVE wiki, `ByteData`), then those of every object.
pub(crate) const BYTE_DATA_METHODS: [Native; 4] = [
    Native::DataGetSize,
    Native::DataGetString,
    Native::ObjectType,
    Native::ObjectTypeOf,
];

// The first of some functions that has a name.
fn first_named(functions: &[Native], name: &[u8]) -> Option<Native>
    ensures { option_map native_view result ≡ named name.now (map native_view functions.now) }
{
    for function in functions {
        let own = function.name();
        if own == name {
            return Some(*function);
        }
    }
    None
}

impl Heap {
    // The method of a name as a value, nil where there is none of that name.
    pub(crate) fn method(&self, methods: &[Native], key: Value) -> Value
        requires key { IsMade self.now key }
        ensures method { value_view self.now.texts result
            ≡ method_named (map native_view methods.now) (value_view self.now.texts key) }
        ensures made { IsMade self.now result }
    {
        let Value::Str(name) = key else {
            return Value::Nil;
        };
        match first_named(methods, self.string(name)) {
            Some(function) => Value::Native(function),
            None => Value::Nil,
        }
    }
}
