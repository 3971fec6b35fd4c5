ghost use Rattle.std.specs.Prelude.{Option};

use crate::writer::write_all;
use love_base::{MemSink, Sink, SinkErr};
use std::test::Fail;

// A sink that takes each piece whole and keeps the sizes.
#[derive(Drop)]
struct Sizes {
    sizes: Vec<usize>,
}

impl Sink for Sizes {
    ghost faults = { λ _. 0 };

    ghost taken = { λ _. Option.None };

    fn write(&mut self, piece: &[u8]) -> Result<usize, SinkErr> {
        match self.sizes.push(piece.len()) {
            Ok(()) => Ok(piece.len()),
            Err(_) => Err(SinkErr::Memory),
        }
    }
}

// Each piece is the next 4,096 bytes, or all that are left.
#[test]
fn pieces_have_4096_bytes(rt: HostRuntime) -> Result<(), Fail> {
    let rows: [(usize, &[usize]); 4] = [
        (0, &[]),
        (4096, &[4096]),
        (4097, &[4096, 1]),
        (12800, &[4096, 4096, 4096, 512]),
    ];
    for (length, sizes) in rows {
        let out = vec![in rt.alloc(); b'a'; length]?;
        let mut sink = Sizes {
            sizes: Vec::new(rt.alloc()),
        };
        assert!(rt; write_all(&mut sink, out.as_slice()).is_ok());
        assert_eq!(rt; sink.sizes.as_slice(), sizes);
    }
    Ok(())
}

// A sink that takes one byte at a time gets all of 10,000 bytes; one whose second call fails gets
// what it took before.
#[test]
fn bytes_go_in_order(rt: HostRuntime) -> Result<(), Fail> {
    let out = vec![in rt.alloc(); b'a'; 10_000]?;
    let mut sink = MemSink::new(rt.alloc(), 1, Vec::new(rt.alloc()));
    assert!(rt; write_all(&mut sink, out.as_slice()).is_ok());
    assert_eq!(rt; sink.taken(), out.as_slice());
    let mut failing = MemSink::new(rt.alloc(), 3, vec![in rt.alloc(); 2]?);
    assert!(rt; write_all(&mut failing, b"hello\n") == Err(SinkErr::Failed));
    assert_eq!(rt; failing.taken(), b"hel".as_slice());
    Ok(())
}
