//! Messages and refusals as texts.

use crossing::{PackFault, pack};
use love_base::{List, Memory};
use lua_heap::{Heap, Value};
use std::alloc::Global;
use variant::Variant;

// A number's digits.
fn show_number(number: i64, out: &mut Vec<u8>) -> Result<(), Memory> {
    out.extend_from_slice(itoa::Buffer::new().format(number).as_bytes())?;
    Ok(())
}

// A message as a text; a table as the list of its pairs.
#[cycle(show)]
fn show(message: &Variant, out: &mut Vec<u8>) -> Result<(), Memory> {
    match message {
        Variant::Nil => out.extend_from_slice(b"nil")?,
        Variant::Bool(true) => out.extend_from_slice(b"true")?,
        Variant::Bool(false) => out.extend_from_slice(b"false")?,
        Variant::Num(number) => show_number(number.get(), out)?,
        Variant::Bytes(text) => out.extend_from_slice(text.bytes())?,
        Variant::Data(data) => show_data(data.bytes(), out)?,
        Variant::Channel(channel) => show_number(i64::from(channel.get()), out)?,
        Variant::Table(pairs) => show_pairs(pairs, out)?,
    }
    Ok(())
}

fn show_data(bytes: &[u8], out: &mut Vec<u8>) -> Result<(), Memory> {
    out.extend_from_slice(b"data ")?;
    out.extend_from_slice(bytes)?;
    Ok(())
}

#[cycle(show)]
fn show_pairs(pairs: &List<(Variant, Variant)>, out: &mut Vec<u8>) -> Result<(), Memory> {
    out.push(b'{')?;
    for (key, value) in pairs.as_slice() {
        show(key, out)?;
        out.push(b':')?;
        show(value, out)?;
        out.push(b' ')?;
    }
    out.push(b'}')?;
    Ok(())
}

// The text of a message.
fn text_of(alloc: Global, message: &Variant) -> Result<Vec<u8>, Memory> {
    let mut out = Vec::new(alloc);
    show(message, &mut out)?;
    Ok(out)
}

// Whether a value is the message of this text.
pub(crate) fn packs(alloc: Global, heap: &Heap, value: &Value, wanted: &[u8]) -> bool {
    if !heap.is_made(*value) {
        return false;
    }
    let Ok(message) = pack(alloc, heap, *value) else {
        return false;
    };
    match text_of(alloc, &message) {
        Ok(text) => text.as_slice() == wanted,
        Err(_) => false,
    }
}

// Whether a value is refused by this fault.
pub(crate) fn is_refused(alloc: Global, heap: &Heap, value: &Value, wanted: PackFault) -> bool {
    if !heap.is_made(*value) {
        return false;
    }
    match pack(alloc, heap, *value) {
        Ok(_) => false,
        Err(fault) => fault == wanted,
    }
}
