ghost use Rattle.std.specs.Prelude.{◌≡◌, ◌≤◌, ◌<◌, ◌+◌, ◌⊎◌, ◌-◌, [], ◌∷◌, drop, length, count_by, IfOk, IfErr, Ok, Err, IsTrue, slice_get};
ghost use Rattle.lua_pattern.specs.Reading.{first_is, is_part, with_repeat, IsSetOf, IsSet, Stands, StartFits, refused, too_many, ItemAt, captures_after, Reads};
ghost use Rattle.lua_pattern.specs.Tree.{begins_capture, most_captures, most_items};
ghost use Rattle.lua_pattern.specs.declared.fault.PatternFault.TheVariants.{Memory};

use crate::PatternFault;
use crate::class::Class;
use crate::item::{Item, Repeat};
use crate::mark::{Mark, Marks};
use crate::set::members;
use crate::start::{Start, repeat_of, start_of};
use love_base::List;
use std::alloc::Global;

// How many items a pattern has at most.
const MOST_ITEMS: usize = 200;

// How many captures a pattern has at most.
const MOST_CAPTURES: usize = 32;

// Whether a text begins with a caret.
pub(crate) fn has_caret(text: &[u8]) -> bool
    ensures value { result ≡ first_is 94 text.now }
    ensures some { IsTrue result → 0 < length text.now }
{
    matches!(text, [b'^', ..])
}

// The class of a set's text or of its complement, and how many bytes it takes.
fn set_of(alloc: Global, complement: bool, text: &[u8]) -> Result<(Class, usize), PatternFault>
    ensures ok { IfOk result (λ read.
        IsSetOf complement text.now (Ok (read.0, drop read.1 text.now))) }
    ensures fits { IfOk result (λ read. read.1 ≤ length text.now) }
    ensures fault { IfErr result (λ fault.
        (fault ≡ Memory) ⊎ IsSetOf complement text.now (Err fault)) }
{
    match members(alloc, text) {
        Ok((members, length)) => {
            if complement {
                return Ok((Class::NotSet(members), length));
            }
            Ok((Class::Set(members), length))
        }
        Err(fault) => Err(fault),
    }
}

// The class of a set from the text behind its first bracket, and how many bytes of that it takes.
fn set_class(alloc: Global, text: &[u8]) -> Result<(Class, usize), PatternFault>
    ensures ok { IfOk result (λ read. IsSet text.now (Ok (read.0, drop read.1 text.now))) }
    ensures fits { IfOk result (λ read. read.1 ≤ length text.now) }
    ensures fault { IfErr result (λ fault.
        (fault ≡ Memory) ⊎ IsSet text.now (Err fault)) }
{
    if !has_caret(text) {
        return set_of(alloc, false, text);
    }
    match set_of(alloc, true, &text[1..]) {
        Ok((class, length)) => Ok((class, length + 1)),
        Err(fault) => Err(fault),
    }
}

// The item that a class is, of which so many bytes of the text stand; and how many it takes with
// what says how often it stands.
fn single(class: Class, size: usize, text: &[u8]) -> (Item, usize)
    requires { size ≤ length text.now }
    ensures value { with_repeat (Ok (class, drop size text.now))
        ≡ Ok (result.0, drop result.1 text.now) }
    ensures fits { result.1 ≤ length text.now }
{
    let repeat = repeat_of(&text[size..]);
    match repeat {
        Repeat::Once => (Item::Single(class, repeat), size),
        _ => (Item::Single(class, repeat), size + 1),
    }
}

// One item too many, where so many stand before.
fn too_many(count: usize) -> Option<PatternFault>
    ensures { result ≡ too_many count }
{
    if count >= MOST_ITEMS {
        Some(PatternFault::TooManyItems)
    } else {
        None
    }
}

// Whether the capture of this number is closed.
fn is_closed(captures: &Marks, number: u8) -> bool
    ensures { result ≡ is_part (slice_get captures.now (number - 1)) }
{
    matches!(captures.at(number), Some(Mark::Part(_, _)))
}

// What is refused because of the captures and the items that stand before.
fn refused(captures: &Marks, count: usize, start: Start) -> Option<PatternFault>
    ensures { result ≡ refused captures.now count start }
{
    match start {
        Start::LonePercent | Start::ShortBalance => None,
        Start::Close if !captures.has_open() => Some(PatternFault::BadCapture),
        Start::Back(k) if k == 0 || !is_closed(captures, k) => Some(PatternFault::BadCapture),
        Start::Open | Start::Position if captures.len() >= MOST_CAPTURES => {
            Some(PatternFault::TooManyCaptures)
        }
        _ => too_many(count),
    }
}

// The item that begins so, and how many bytes it takes behind its first one.
fn item_of(alloc: Global, start: Start, text: &[u8]) -> Result<(Item, usize), PatternFault>
    requires { StartFits start (length text.now) }
    ensures ok { IfOk result (λ read. Stands start text.now (Ok (read.0, drop read.1 text.now))) }
    ensures fits { IfOk result (λ read. read.1 ≤ length text.now) }
    ensures fault { IfErr result (λ fault.
        (fault ≡ Memory) ⊎ Stands start text.now (Err fault)) }
{
    match start {
        Start::Open => Ok((Item::Open, 0)),
        Start::Position => Ok((Item::Position, 1)),
        Start::Close => Ok((Item::Close, 0)),
        Start::Back(k) => Ok((Item::Back(k), 1)),
        Start::Balance(x, y) => Ok((Item::Balance(x, y), 3)),
        Start::ShortBalance => Err(PatternFault::BadBalance),
        Start::Frontier => Err(PatternFault::Frontier),
        Start::LonePercent => Err(PatternFault::EndsWithPercent),
        Start::End => Ok((Item::End, 0)),
        Start::Any => Ok(single(Class::Any, 0, text)),
        Start::One(member, size) => Ok(single(Class::One(member), size, text)),
        Start::Set => match set_class(alloc, text) {
            Ok((class, size)) => Ok(single(class, size, text)),
            Err(fault) => Err(fault),
        },
    }
}

// The item that a byte and this text behind it begin with, behind so many items with these
// captures; and how many bytes it takes behind its first one.
fn item_at(
    alloc: Global,
    byte: u8,
    text: &[u8],
    captures: &Marks,
    count: usize,
) -> Result<(Item, usize), PatternFault>
    ensures ok { IfOk result (λ read.
        ItemAt captures.now count byte text.now (Ok (read.0, drop read.1 text.now))) }
    ensures fits { IfOk result (λ read. read.1 ≤ length text.now) }
    ensures fault { IfErr result (λ fault.
        (fault ≡ Memory) ⊎ ItemAt captures.now count byte text.now (Err fault)) }
{
    let start = start_of(byte, text);
    match refused(captures, count, start) {
        Some(fault) => Err(fault),
        None => item_of(alloc, start, text),
    }
}

// Notes what an item does to the captures.
fn note(item: &Item, captures: &mut Marks)
    requires { length captures.old + count_by begins_capture (item.now ∷ []) ≤ most_captures }
    ensures { captures.new ≡ captures_after item.now captures.old }
{
    match item {
        Item::Open => captures.push(Mark::Open(0)),
        Item::Position => captures.push(Mark::Place(0)),
        Item::Close => {
            if let Some((i, start)) = captures.last_open() {
                captures.set(i, Mark::Part(start, 0));
            }
        }
        _ => {}
    }
}

// The items of a pattern behind its anchor.
pub(crate) fn items(alloc: Global, source: &[u8]) -> Result<List<Item>, PatternFault>
    ensures ok { IfOk result (λ items. Reads [] 0 source.now (Ok items)) }
    ensures captures { IfOk result (λ items. count_by begins_capture items ≤ most_captures) }
    ensures few { IfOk result (λ items. length items ≤ most_items) }
    ensures fault { IfErr result (λ fault.
        (fault ≡ Memory) ⊎ Reads [] 0 source.now (Err fault)) }
{
    let mut items = List::new(alloc);
    let mut captures = Marks::new();
    let mut rest = source;
    while let Some((byte, text)) = rest.split_first() {
        match item_at(alloc, *byte, text, &captures, items.len()) {
            Ok((item, size)) => {
                note(&item, &mut captures);
                items.push(item)?;
                rest = &text[size..];
            }
            Err(fault) => return Err(fault),
        }
    }
    if captures.has_open() {
        return Err(PatternFault::BadCapture);
    }
    Ok(items)
}
