use lua_heap::{Native, Value};
use lua_lib::Fault;
use lua_lib::call::{Cause, Expected};
use std::alloc::Global;
use std::test::Fail;

// Whether a cause says this, without its place.
fn says(alloc: Global, native: Native, cause: Cause, wanted: &[u8]) -> bool {
    let mut buffer = Vec::new(alloc);
    match cause.put_text(native, &mut buffer) {
        Ok(()) => buffer.as_slice() == wanted,
        Err(_) => false,
    }
}

// The texts are those of lua5.1, but for the last one: there a method's object counts as 1.
#[test]
fn texts(rt: HostRuntime) -> Result<(), Fail> {
    let rows: [(Native, Cause, &[u8]); 4] = [
        (
            Native::MathAbs,
            Cause::Wants(0, Expected::Number, Value::Nil),
            b"bad argument #1 to 'abs' (number expected, got nil)",
        ),
        (
            Native::StringChar,
            Cause::By(Fault::NoByte(0)),
            b"bad argument #1 to 'char' (0 to 255 expected)",
        ),
        (
            Native::Assert,
            Cause::By(Fault::AssertionFailed),
            b"assertion failed!",
        ),
        (
            Native::DataGetSize,
            Cause::Wants(0, Expected::Data, Value::Bool(true)),
            b"bad argument #0 to 'getSize' (Data expected, got boolean)",
        ),
    ];
    for (native, cause, wanted) in rows {
        assert!(rt; says(rt.alloc(), native, cause, wanted), "{native:?}");
    }
    Ok(())
}
