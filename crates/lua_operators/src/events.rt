//! The names of the events that handlers are for (Lua 5.1 manual §2.8).

ghost use Rattle.std.specs.Prelude.{◌≡◌, ◌<◌, length, slice_get, codes, Some, IfOk, OnOk};
ghost use Rattle.lua_meaning.specs.Store.{handler};
ghost use Rattle.lua_heap.specs.Value.{value_view, text_at};
ghost use Rattle.lua_heap.specs.Heap.{store_of, IsMade, Extends};
ghost use Rattle.lua_operators.specs.Events.{AreEvents, id_of, event_text};

use love_base::Memory;
use lua_heap::{Heap, StrId, Value};

/// What a handler is for: an operator, a call of a value that is no function, or a value's text.
#[derive(Clone, Copy, Debug, PartialEq, Eq)]
pub enum Event {
    Add,
    Sub,
    Mul,
    Div,
    Mod,
    Pow,
    Minus,
    Concat,
    Equal,
    Less,
    UpTo,
    Call,
    Text,
}

/// The ids that the events' names have in one heap. They stay the names' ids while the heap grows.
#[derive(Clone, Copy, Debug)]
pub struct Events {
    add: StrId,
    sub: StrId,
    mul: StrId,
    div: StrId,
    modulo: StrId,
    pow: StrId,
    minus: StrId,
    concat: StrId,
    equal: StrId,
    less: StrId,
    up_to: StrId,
    call: StrId,
    text: StrId,
}

impl Events {
    /// The events of a heap, which gets their names.
    ///
    /// # Errors
    ///
    /// [`Memory`] where there is no room for a name. The heap may have some of the names then.
    pub fn new(heap: &mut Heap) -> Result<Events, Memory>
        ensures events { IfOk result (λ events. AreEvents heap.new.texts events) }
        ensures store { OnOk result (store_of heap.new ≡ store_of heap.old) }
        ensures functions { OnOk result (heap.new.functions ≡ heap.old.functions) }
        ensures extends { OnOk result (Extends heap.old heap.new) }
    {
        let add = heap.intern(b"__add")?;
        let sub = heap.intern(b"__sub")?;
        let mul = heap.intern(b"__mul")?;
        let div = heap.intern(b"__div")?;
        let modulo = heap.intern(b"__mod")?;
        let pow = heap.intern(b"__pow")?;
        let minus = heap.intern(b"__unm")?;
        let concat = heap.intern(b"__concat")?;
        let equal = heap.intern(b"__eq")?;
        let less = heap.intern(b"__lt")?;
        let up_to = heap.intern(b"__le")?;
        let call = heap.intern(b"__call")?;
        let text = heap.intern(b"__tostring")?;
        Ok(Events {
            add,
            sub,
            mul,
            div,
            modulo,
            pow,
            minus,
            concat,
            equal,
            less,
            up_to,
            call,
            text,
        })
    }

    // The id of an event's name.
    #[inline]
    fn id(&self, event: Event) -> StrId
        ensures { result ≡ id_of self.now event }
    {
        match event {
            Event::Add => self.add,
            Event::Sub => self.sub,
            Event::Mul => self.mul,
            Event::Div => self.div,
            Event::Mod => self.modulo,
            Event::Pow => self.pow,
            Event::Minus => self.minus,
            Event::Concat => self.concat,
            Event::Equal => self.equal,
            Event::Less => self.less,
            Event::UpTo => self.up_to,
            Event::Call => self.call,
            Event::Text => self.text,
        }
    }

    /// What a value's metatable has for an event, nil where it has nothing. Takes no memory.
    #[inline]
    pub fn handler(&self, heap: &Heap, value: &Value, event: Event) -> Value
        requires events { AreEvents heap.now.texts self.now }
        requires made { IsMade heap.now value.now }
        ensures handler { value_view heap.now.texts result ≡ handler (store_of heap.now)
            (value_view heap.now.texts value.now) (event_text event) }
        ensures made { IsMade heap.now result }
    {
        heap.handler(*value, self.id(event))
    }
}
