use super::{folder, words};
use crate::{Ending, love};
use love_base::{MemFolder, MemSink, Text};
use std::alloc::Global;
use std::test::Fail;

// The status of a game, where nothing was written.
fn refused(alloc: Global, words: &[Text], mut folder: MemFolder) -> Option<u8> {
    let mut sink = MemSink::new(alloc, 9, Vec::new(alloc));
    let report = love(alloc, words, &mut folder, &mut sink);
    if sink.taken().is_empty() && report.states.is_empty() && report.channels.is_empty() {
        Some(report.status)
    } else {
        None
    }
}

// Words, names and failing calls of the folder for which nothing runs and nothing is written.
#[test]
fn refused_games(rt: HostRuntime) -> Result<(), Fail> {
    let rows: [(&[&[u8]], &[u8], &[u64], Ending); 6] = [
        (&[], b"main.lua", &[], Ending::Usage),
        (
            &[b"game", b"--frames", b"x"],
            b"main.lua",
            &[1],
            Ending::Usage,
        ),
        (&[b"game"], b"main.luac", &[], Ending::NoMain),
        (&[b"game"], b"main.luac", &[2], Ending::NoMain),
        (&[b"game"], b"main.lua", &[1], Ending::Unreadable),
        (&[b"game"], b"main.lua", &[2], Ending::Unreadable),
    ];
    for (given, name, fails, ending) in rows {
        let words = words(rt.alloc(), given)?;
        let folder = folder(rt.alloc(), name, b"print(1)", fails)?;
        assert!(rt; refused(rt.alloc(), words.as_slice(), folder) == Some(ending.code()));
    }
    Ok(())
}
