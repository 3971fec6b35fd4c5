ghost use Rattle.std.specs.Prelude.{◌<◌};

use love_base::{RealSink, Sink, SinkErr};
use std::fmt::Display;
use std::io;
use std::io::ErrorKind;
use std::test::Fail;

// An output whose every write takes so many bytes, or fails.
#[derive(Clone, Copy)]
enum Output {
    Takes(usize),
    Fails(ErrorKind),
}

impl Print for Output {
    fn print<D: Display + Drop>(&self, _value: D) -> io::Result<()> {
        Ok(())
    }

    fn println<D: Display + Drop>(&self, _value: D) -> io::Result<()> {
        Ok(())
    }

    fn write_all(&self, _bytes: &[u8]) -> io::Result<()> {
        Ok(())
    }

    fn write_some(&self, bytes: &[u8]) -> io::Result<usize> {
        match *self {
            Output::Takes(count) => Ok(count.min(bytes.len())),
            Output::Fails(kind) => Err(io::Error::from(kind)),
        }
    }
}

// Whether a sink over this output answers so, and so again.
fn answers(output: Output, answer: Result<usize, SinkErr>) -> bool {
    let mut sink = RealSink::new(output);
    let (first, second) = (sink.write(b"four"), sink.write(b"four"));
    first == answer && second == answer
}

#[test]
fn an_output_that_takes_nothing_fails(rt: HostRuntime) {
    let rows = [
        (Output::Takes(1), Ok(1)),
        (Output::Takes(4), Ok(4)),
        (Output::Takes(5), Ok(4)),
        (Output::Takes(0), Err(SinkErr::Failed)),
        (Output::Fails(ErrorKind::StorageFull), Err(SinkErr::Failed)),
        (Output::Fails(ErrorKind::BrokenPipe), Err(SinkErr::Failed)),
        (Output::Fails(ErrorKind::OutOfMemory), Err(SinkErr::Memory)),
    ];
    for (output, answer) in rows {
        assert!(rt; answers(output, answer), "{answer:?}");
    }
}

#[test]
fn standard_output_takes_a_newline(rt: HostRuntime) -> Result<(), Fail> {
    let alloc = rt.alloc();
    let mut sink = RealSink::new(rt.clone()?);
    let newline = Vec::from_slice(alloc, b"\n")?;
    assert!(rt; sink.write(&newline) == Ok(1));
    Ok(())
}
