//! Errors of operators and fields.

ghost use Rattle.std.specs.Prelude.{◌≡◌, ◌++◌, Some, OnOk};
ghost use Rattle.lua_value.specs.declared.arithmetic.NumFault.{NumFault};
ghost use Rattle.lua_meaning.specs.Fault.{number_text, placed};
ghost use Rattle.lua_operators.specs.Faults.{fault_text, attempted, pair_text};

use crate::TypeName;
use itoa::Buffer;
use love_base::Memory;
use lua_value::NumFault;

/// Why an operator has no value, or a value no fields. Each is an error of the language, whose text
/// is the reference program's but for the two on numbers, which are this project's own.
#[derive(Clone, Copy, Debug, PartialEq, Eq)]
pub enum Fault {
    /// Arithmetic on a value that is no number.
    Arithmetic(TypeName),
    /// The result isn't a whole number.
    NotWhole,
    /// The result is out of the range of numbers.
    OutOfRange,
    /// Concatenation of a value that is no string and no number.
    Concatenate(TypeName),
    /// The result would be longer than 16,777,216 bytes.
    StringTooLong,
    /// The length of a value that is no string and no table.
    Length(TypeName),
    /// An order of two values that have none.
    Compare(TypeName, TypeName),
    /// A field of a value that has none.
    Index(TypeName),
    /// A hundredth handler that isn't a function.
    IndexLoop,
}

// What a number that isn't there is.
#[inline]
pub(crate) fn of_number(fault: NumFault) -> Fault
    ensures { fault_text result ≡ number_text fault }
{
    match fault {
        NumFault::NotWhole => Fault::NotWhole,
        NumFault::OutOfRange => Fault::OutOfRange,
    }
}

impl Fault {
    /// Puts the error's text, without its place, at the end of a buffer.
    ///
    /// # Errors
    ///
    /// [`Memory`] where there is no room for it; a part of it may stand there then.
    pub fn put_text(self, buffer: &mut Vec<u8>) -> Result<(), Memory>
        ensures { OnOk result (buffer.new.items ≡ buffer.old.items ++ fault_text self) }
    {
        match self {
            Fault::Arithmetic(name) => put_value(
                buffer,
                b"attempt to perform arithmetic on a ",
                name,
            ),
            Fault::NotWhole => put(buffer, b"number has no whole value"),
            Fault::OutOfRange => put(buffer, b"number out of range"),
            Fault::Concatenate(name) => put_value(buffer, b"attempt to concatenate a ", name),
            Fault::StringTooLong => put(buffer, b"string too long"),
            Fault::Length(name) => put_value(buffer, b"attempt to get length of a ", name),
            Fault::Compare(left, right) => put_pair(buffer, left, right),
            Fault::Index(name) => put_value(buffer, b"attempt to index a ", name),
            Fault::IndexLoop => put(buffer, b"index loop"),
        }
    }
}

impl Fault {
    /// Puts the error's value at the end of a buffer: its text behind the place of the line that
    /// failed.
    ///
    /// # Errors
    ///
    /// [`Memory`] where there is no room for it; a part of it may stand there then.
    pub fn put_placed(self, buffer: &mut Vec<u8>, file: &[u8], line: u32) -> Result<(), Memory>
        ensures { OnOk result (buffer.new.items ≡ buffer.old.items
            ++ placed (Some (record { file = file.now; line = line })) (fault_text self)) }
    {
        put(buffer, file)?;
        put(buffer, b":")?;
        put(buffer, Buffer::new().format(line).as_bytes())?;
        put(buffer, b": ")?;
        self.put_text(buffer)
    }
}

fn put(buffer: &mut Vec<u8>, text: &[u8]) -> Result<(), Memory>
    ensures { OnOk result (buffer.new.items ≡ buffer.old.items ++ text.now) }
{
    buffer.extend_from_slice(text)?;
    Ok(())
}

// What was attempted, and the type of the value that it was attempted on.
fn put_value(buffer: &mut Vec<u8>, attempt: &[u8], name: TypeName) -> Result<(), Memory>
    ensures { OnOk result (buffer.new.items ≡ buffer.old.items ++ attempted attempt.now name) }
{
    put(buffer, attempt)?;
    put(buffer, name.text())?;
    put(buffer, b" value")
}

// That two values have no order.
fn put_pair(buffer: &mut Vec<u8>, left: TypeName, right: TypeName) -> Result<(), Memory>
    ensures { OnOk result (buffer.new.items ≡ buffer.old.items ++ pair_text left right) }
{
    if left.text() == right.text() {
        put(buffer, b"attempt to compare two ")?;
        put(buffer, left.text())?;
        return put(buffer, b" values");
    }
    put(buffer, b"attempt to compare ")?;
    put(buffer, left.text())?;
    put(buffer, b" with ")?;
    put(buffer, right.text())
}
