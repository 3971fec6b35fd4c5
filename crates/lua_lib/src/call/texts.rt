//! The texts of errors.

ghost use Rattle.std.specs.Prelude.{◌≡◌, ◌++◌, Some, OnOk, codes, decimal};
ghost use Rattle.std.specs.Fmt.{signed_decimal};
ghost use Rattle.lua_meaning.specs.Native.{is_method};
ghost use Rattle.lua_meaning.specs.Fault as meaning;
ghost use Rattle.lua_heap.specs.Native.{native_view};
ghost use Rattle.lua_lib.specs.Faults.{fault_error};
ghost use Rattle.lua_lib.specs.Texts.{error_text, cause_text, has_place, is_placed, placed_text};

use crate::Fault;
use crate::call::cause::Cause;
use crate::call::types::type_name;
use itoa::Buffer;
use love_base::Memory;
use lua_heap::Native;
use lua_value::Num;

impl Cause {
    /// Puts what an error of a function says at the end of a buffer, without its place. Nothing is
    /// put of [`Cause::Raises`], whose value is the error itself, and of want of memory.
    ///
    /// # Errors
    ///
    /// [`Memory`] where there is no room for it; a part of it may stand there then.
    pub fn put_text(&self, native: Native, buffer: &mut Vec<u8>) -> Result<(), Memory>
        ensures { OnOk result (buffer.new.items
            ≡ buffer.old.items ++ cause_text (native_view native) self.now) }
    {
        match *self {
            Cause::Wants(argument, expected, got) => {
                put_wanted(buffer, native, argument, expected.text(), type_name(&got))
            }
            Cause::NoText(number, value) => put_no_text(buffer, number, type_name(&value)),
            Cause::By(fault) => put_fault(buffer, native, fault),
            Cause::Raises(_) => Ok(()),
        }
    }

    /// Puts the value of an error, which is a text, at the end of a buffer: what it says behind the
    /// place of the line that called the function. The message of `assert` has no place. Nothing is
    /// put of [`Cause::Raises`], whose value is the error itself.
    ///
    /// # Errors
    ///
    /// [`Memory`] where there is no room for it; a part of it may stand there then.
    pub fn put_placed(
        &self,
        native: Native,
        buffer: &mut Vec<u8>,
        file: &[u8],
        line: u32,
    ) -> Result<(), Memory>
        ensures { OnOk result (buffer.new.items ≡ buffer.old.items ++ placed_text (native_view native)
            (record { file = file.now; line = line }) self.now) }
    {
        if has_place(self) {
            return self.put_behind(native, buffer, file, line);
        }
        self.put_text(native, buffer)
    }

    // Puts what an error says behind a place.
    fn put_behind(
        &self,
        native: Native,
        buffer: &mut Vec<u8>,
        file: &[u8],
        line: u32,
    ) -> Result<(), Memory>
        ensures { OnOk result (buffer.new.items ≡ buffer.old.items
            ++ meaning.placed (Some (record { file = file.now; line = line }))
            (cause_text (native_view native) self.now)) }
    {
        put_place(buffer, file, line)?;
        self.put_text(native, buffer)?;
        Ok(())
    }
}

// Whether the text of an error stands behind the place of its caller.
fn has_place(cause: &Cause) -> bool
    ensures { result ≡ has_place cause.now }
{
    match *cause {
        Cause::Raises(_) => false,
        Cause::By(fault) => is_placed(fault),
        _ => true,
    }
}

fn is_placed(fault: Fault) -> bool
    ensures { result ≡ is_placed fault }
{
    !matches!(fault, Fault::AssertionFailed | Fault::Memory)
}

// Puts a place before a text.
fn put_place(buffer: &mut Vec<u8>, file: &[u8], line: u32) -> Result<(), Memory>
    ensures { OnOk result (buffer.new.items
        ≡ buffer.old.items ++ (file.now ++ (codes ":" ++ (decimal line ++ codes ": ")))) }
{
    put(buffer, file)?;
    put(buffer, b":")?;
    put(buffer, Buffer::new().format(line).as_bytes())?;
    put(buffer, b": ")
}

fn put(buffer: &mut Vec<u8>, text: &[u8]) -> Result<(), Memory>
    ensures { OnOk result (buffer.new.items ≡ buffer.old.items ++ text.now) }
{
    buffer.extend_from_slice(text)?;
    Ok(())
}

// Whether a function is a method, whose object counts as its argument number 0.
fn is_a_method(native: Native) -> bool
    ensures { result ≡ is_method (native_view native) }
{
    matches!(
        native,
        Native::ChannelClear
            | Native::ChannelDemand
            | Native::ChannelGetCount
            | Native::ChannelHasRead
            | Native::ChannelPeek
            | Native::ChannelPerformAtomic
            | Native::ChannelPop
            | Native::ChannelPush
            | Native::ChannelSupply
            | Native::ThreadGetError
            | Native::ThreadIsRunning
            | Native::ThreadStart
            | Native::ThreadWait
            | Native::DataGetFilename
            | Native::DataGetSize
            | Native::DataGetString
            | Native::ObjectType
            | Native::ObjectTypeOf
    )
}

// The number that an argument has in errors.
fn shown(native: Native, argument: usize) -> u128
    ensures { result ≡ meaning.shown (native_view native) argument }
{
    if is_a_method(native) {
        argument as u128
    } else {
        argument as u128 + 1
    }
}

// Puts which argument of which function is wrong, before what is wrong with it.
fn put_bad(buffer: &mut Vec<u8>, argument: u128, function: &[u8]) -> Result<(), Memory>
    ensures { OnOk result (buffer.new.items ≡ buffer.old.items
        ++ (codes "bad argument #" ++ (decimal argument ++ (codes " to '" ++ (function.now
        ++ codes "' ("))))) }
{
    put(buffer, b"bad argument #")?;
    put(buffer, Buffer::new().format(argument).as_bytes())?;
    put(buffer, b" to '")?;
    put(buffer, function)?;
    put(buffer, b"' (")?;
    Ok(())
}

// Puts that an argument has a wrong value.
fn put_improper(
    buffer: &mut Vec<u8>,
    native: Native,
    argument: usize,
    text: &[u8],
) -> Result<(), Memory>
    ensures { OnOk result (buffer.new.items
        ≡ buffer.old.items ++ meaning.bad_argument (native_view native) argument text.now) }
{
    put_bad(buffer, shown(native, argument), native.name())?;
    put(buffer, text)?;
    put(buffer, b")")?;
    Ok(())
}

// Puts that an argument has a wrong type.
fn put_wanted(
    buffer: &mut Vec<u8>,
    native: Native,
    argument: usize,
    expected: &[u8],
    got: &[u8],
) -> Result<(), Memory>
    ensures { OnOk result (buffer.new.items
        ≡ buffer.old.items ++ meaning.bad_argument (native_view native) argument
        (expected.now ++ (codes " expected, got " ++ got.now))) }
{
    put_bad(buffer, shown(native, argument), native.name())?;
    put(buffer, expected)?;
    put(buffer, b" expected, got ")?;
    put(buffer, got)?;
    put(buffer, b")")?;
    Ok(())
}

// Puts that a value at a number has no text.
fn put_no_text(buffer: &mut Vec<u8>, number: Num, got: &[u8]) -> Result<(), Memory>
    ensures { OnOk result (buffer.new.items ≡ buffer.old.items
        ++ (codes "invalid value (" ++ (got.now ++ (codes ") at index " ++ (signed_decimal number
        ++ codes " in table for 'concat'"))))) }
{
    put(buffer, b"invalid value (")?;
    put(buffer, got)?;
    put(buffer, b") at index ")?;
    put(buffer, number.text(&mut Buffer::new()).as_bytes())?;
    put(buffer, b" in table for 'concat'")?;
    Ok(())
}

// Puts what a fault says; nothing of want of memory.
fn put_fault(buffer: &mut Vec<u8>, native: Native, fault: Fault) -> Result<(), Memory>
    ensures { OnOk result (buffer.new.items
        ≡ buffer.old.items ++ error_text (native_view native) (fault_error fault)) }
{
    match fault {
        Fault::IndexOutOfRange => put_improper(buffer, native, 0, b"index out of range"),
        Fault::BaseOutOfRange => put_improper(buffer, native, 1, b"base out of range"),
        Fault::NoByte(argument) => put_improper(buffer, native, argument, b"0 to 255 expected"),
        Fault::Negative(argument) => put_improper(
            buffer,
            native,
            argument,
            b"not negative expected",
        ),
        Fault::NotWhole => put(buffer, b"number has no whole value"),
        Fault::OutOfRange => put(buffer, b"number out of range"),
        Fault::StringTooLong => put(buffer, b"string too long"),
        Fault::TooManyValues => put(buffer, b"too many values"),
        Fault::PatternsNotAvailable => put(buffer, b"patterns are not available"),
        Fault::InvalidFormat => put(buffer, b"invalid format"),
        Fault::NoSuchKey => put_improper(buffer, native, 1, b"no such key"),
        Fault::KeyIsNil => put(buffer, b"table index is nil"),
        Fault::AssertionFailed => put(buffer, b"assertion failed!"),
        Fault::NoMetatable => put_improper(buffer, native, 1, b"nil or table expected"),
        Fault::Protected => put(buffer, b"cannot change a protected metatable"),
        Fault::PositionOutOfBounds => put_improper(buffer, native, 1, b"position out of bounds"),
        Fault::NoOrder => put(buffer, b"'sort' needs all numbers or all strings"),
        Fault::TakesNoFunction => put(buffer, b"'sort' takes no function"),
        Fault::OutOfBounds(argument) => put_improper(buffer, native, argument, b"out of bounds"),
        Fault::NotSeconds(argument) => put_improper(
            buffer,
            native,
            argument,
            b"0 to 1000000 expected",
        ),
        Fault::NoStatus(argument) => put_improper(buffer, native, argument, b"0 to 63 expected"),
        Fault::Memory => Ok(()),
    }
}
