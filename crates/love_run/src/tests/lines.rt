use super::words;
use crate::command::read_command;
use love_base::Text;
use std::test::Fail;

// Whether the words are the line that says so.
fn says(words: &[Text], folder: &[u8], numbers: (u32, u32, u32)) -> bool {
    match read_command(words) {
        Some(line) => {
            line.folder.bytes() == folder && (line.frames, line.steps, line.workers) == numbers
        }
        None => false,
    }
}

// What words say: a folder, and the numbers of options, which may stand anywhere before `--`.
#[test]
fn lines_of_the_command(rt: HostRuntime) -> Result<(), Fail> {
    let rows: [(&[&[u8]], &[u8], (u32, u32, u32)); 12] = [
        (&[b"game"], b"game", (60, 10_000_000, 8)),
        (&[b"-"], b"-", (60, 10_000_000, 8)),
        (&[b"game", b"--"], b"game", (60, 10_000_000, 8)),
        (&[b"--", b"--frames"], b"--frames", (60, 10_000_000, 8)),
        (&[b"--", b"--"], b"--", (60, 10_000_000, 8)),
        (&[b"check"], b"check", (60, 10_000_000, 8)),
        (&[b"--frames", b"0", b"game"], b"game", (0, 10_000_000, 8)),
        (
            &[b"game", b"--frames=1000000"],
            b"game",
            (1_000_000, 10_000_000, 8),
        ),
        (&[b"game", b"--steps", b"1"], b"game", (60, 1, 8)),
        (
            &[b"--steps=1000000000", b"game"],
            b"game",
            (60, 1_000_000_000, 8),
        ),
        (
            &[b"game", b"--workers", b"0000000016"],
            b"game",
            (60, 10_000_000, 16),
        ),
        (
            &[
                b"--workers=1",
                b"--frames",
                b"2",
                b"--steps=3",
                b"--",
                b"-x",
            ],
            b"-x",
            (2, 3, 1),
        ),
    ];
    for (row, folder, numbers) in rows {
        let words = words(rt.alloc(), row)?;
        assert!(rt; says(words.as_slice(), folder, numbers));
    }
    Ok(())
}

// Words that are no line of the command.
#[test]
fn other_words(rt: HostRuntime) -> Result<(), Fail> {
    let rows: [&[&[u8]]; 27] = [
        &[],
        &[b""],
        &[b"--"],
        &[b"--", b""],
        &[b"\xff"],
        &[b"game", b"\xff"],
        &[b"game", b"more"],
        &[b"game", b"--", b"more"],
        &[b"-x"],
        &[b"game", b"-x"],
        &[b"--help"],
        &[b"game", b"--trace"],
        &[b"--demo", b"4", b"250"],
        &[b"game", b"--frames"],
        &[b"game", b"--frames="],
        &[b"game", b"--frames", b"x"],
        &[b"game", b"--frames", b"-1"],
        &[b"game", b"--frames", b"+1"],
        &[b"game", b"--frames", b"--", b"1"],
        &[b"game", b"--frames", b"1000001"],
        &[b"game", b"--frames", b"00000000001"],
        &[b"game", b"--frames", b"1", b"--frames", b"2"],
        &[b"game", b"--frame", b"1"],
        &[b"game", b"--framesx", b"1"],
        &[b"game", b"--steps", b"0"],
        &[b"game", b"--steps", b"1000000001"],
        &[b"game", b"--workers", b"17"],
    ];
    for row in rows {
        let words = words(rt.alloc(), row)?;
        assert!(rt; read_command(words.as_slice()).is_none());
    }
    Ok(())
}
