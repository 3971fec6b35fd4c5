//! What stands behind a `%` of a format.

ghost use Rattle.std.specs.Prelude.{ℕ, ◌<◌, List, length, IfOk, IfErr};
ghost use Rattle.lua_meaning.specs.Value.{Value};
ghost use Rattle.lua_meaning.specs.Format as meaning;
ghost use Rattle.lua_lib.specs.Faults.{FailsBy};
ghost use Rattle.lua_lib.specs.Items.{IsDirective};

use crate::Fault;
use crate::format::Item;

/// What stands behind a `%`: another one, or an item with its letter.
#[derive(Clone, Copy, Debug, PartialEq, Eq)]
pub enum Directive {
    Percent,
    Converts(Item, u8),
}

/// What stands behind a `%`, and what stands behind that.
///
/// # Errors
///
/// [`Fault::InvalidFormat`] where the format ends there.
pub fn read_directive(text: &[u8]) -> Result<(Directive, &[u8]), Fault>
    ensures ok { IfOk result (λ read. IsDirective text.now read.0 read.1.now) }
    ensures shorter { IfOk result (λ read. length read.1.now < length text.now) }
    ensures fault { IfErr result (λ fault. (n : ℕ) (args : List Value) →
        FailsBy (meaning.item_from text.now meaning.plain_item n args) fault) }
{
    let mut item = Item::plain();
    let mut rest = text;
    while let [byte, behind @ ..] = rest {
        if item.is_flag(*byte) {
            item = item.with_flag(*byte);
        } else if item.is_width(*byte) {
            item = item.with_digit(*byte);
        } else if *byte == b'%' && item.is_plain() {
            return Ok((Directive::Percent, behind));
        } else {
            return Ok((Directive::Converts(item, *byte), behind));
        }
        rest = behind;
    }
    Err(Fault::InvalidFormat)
}
