ghost use Rattle.std.specs.Prelude.{◌≡◌, IfOk};

use love_base::{ChannelNo, Data, List, Memory, Text};
use lua_value::Num;
use std::alloc::Global;

/// A message: a Lua value that refers to nothing in the state that sent it.
///
/// These are the kinds of values that a Channel carries (LÖVE wiki, `Channel:push`): a message is a
/// value of its own, so that states share nothing by it.
#[derive(Debug, Drop)]
pub enum Variant {
    /// `nil`. It is a message like the others: that there is none is an answer of the Channel.
    Nil,
    /// `true` or `false`.
    Bool(bool),
    /// A whole number.
    Num(Num),
    /// A string.
    Bytes(Text),
    /// Bytes that never change, which all states may share.
    Data(Data),
    /// A Channel, by its number.
    Channel(ChannelNo),
    /// A table, as the list of its pairs, whole: each pair is a key and its value.
    Table(List<(Variant, Variant)>),
}

impl Variant {
    /// An equal message, in time linear in its pairs and the bytes of its strings.
    ///
    /// # Errors
    ///
    /// [`Memory`] where there is no room for the copy.
    #[cycle(copy)]
    pub fn copy(&self, alloc: Global) -> Result<Variant, Memory>
        ensures { IfOk result (λ copy. copy ≡ self.now) }
    {
        let copy = match self {
            Variant::Nil => Variant::Nil,
            Variant::Bool(truth) => Variant::Bool(*truth),
            Variant::Num(number) => Variant::Num(*number),
            Variant::Bytes(text) => Variant::Bytes(text.copy(alloc)?),
            Variant::Data(data) => Variant::Data(data.share()?),
            Variant::Channel(channel) => Variant::Channel(*channel),
            Variant::Table(pairs) => Variant::Table(copy_pairs(alloc, pairs)?),
        };
        Ok(copy)
    }
}

/// Equal messages, in the same order, in time linear in all of them together.
///
/// # Errors
///
/// [`Memory`] where there is no room for the copies.
pub fn copy_all(alloc: Global, messages: &List<Variant>) -> Result<List<Variant>, Memory>
    ensures { IfOk result (λ copies. copies ≡ messages.now) }
{
    let mut copies = Vec::new(alloc);
    for message in messages.as_slice() {
        copies.push(message.copy(alloc)?)?;
    }
    Ok(List::from_vec(copies))
}

// Equal pairs, in the same order.
#[cycle(copy)]
fn copy_pairs(
    alloc: Global,
    pairs: &List<(Variant, Variant)>,
) -> Result<List<(Variant, Variant)>, Memory>
    ensures { IfOk result (λ copies. copies ≡ pairs.now) }
{
    let mut copies = Vec::new(alloc);
    for (key, value) in pairs.as_slice() {
        copies.push((key.copy(alloc)?, value.copy(alloc)?))?;
    }
    Ok(List::from_vec(copies))
}
