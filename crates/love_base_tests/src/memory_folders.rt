ghost use Rattle.std.specs.Prelude.{◌≡◌, [], ◌∷◌, IfOk, IsSome, codes};
ghost use Rattle.std.specs.Option.{ForSome};
ghost use Rattle.love_base.specs.Folder.{content, stored};

use love_base::{Folder, FolderErr, MemFolder, Memory, QuietFolder, Text};
use std::alloc::Global;
use std::test::Fail;

// Two files, one of them empty.
fn game(alloc: Global) -> Result<Vec<(Text, Vec<u8>)>, Memory>
    ensures { IfOk result (λ files.
        stored files.items ≡ (codes "main.lua", codes "return") ∷ (codes "a/b.lua", []) ∷ []) }
{
    let mut files = Vec::new(alloc);
    let main = Vec::from_slice(alloc, b"return")?;
    files.push((Text::of(alloc, b"main.lua")?, main))?;
    files.push((Text::of(alloc, b"a/b.lua")?, Vec::new(alloc)))?;
    Ok(files)
}

// What a call comes to.
#[derive(Clone, Copy, Debug, PartialEq, Eq)]
enum Answer {
    Right,
    Wrong,
    Failed,
}

// Whether the names are these paths, in this order.
fn are(names: &[Text], paths: &[&[u8]]) -> bool {
    for at in 0..names.len().min(paths.len()) {
        if names[at].bytes() != paths[at] {
            return false;
        }
    }
    names.len() == paths.len()
}

fn of_listing(listed: Result<Vec<Text>, FolderErr>, paths: &[&[u8]]) -> Answer {
    match listed {
        Ok(names) if are(&names, paths) => Answer::Right,
        Err(FolderErr::Failed) => Answer::Failed,
        _ => Answer::Wrong,
    }
}

fn of_reading(read: Result<Vec<u8>, FolderErr>, bytes: &[u8]) -> Answer {
    match read {
        Ok(found) if found.as_slice() == bytes => Answer::Right,
        Err(FolderErr::Failed) => Answer::Failed,
        _ => Answer::Wrong,
    }
}

// What a folder of the two files answers to a listing, a reading of each, and a listing.
fn asked<F: Folder>(
    alloc: Global,
    folder: &mut F,
    at: &Text,
    main: &Text,
    other: &Text,
) -> [Answer; 4]
    requires main { ForSome (F.files folder.old at.now)
        (λ files. IsSome (content files main.now)) }
    requires other { ForSome (F.files folder.old at.now)
        (λ files. IsSome (content files other.now)) }
{
    let paths = [b"main.lua".as_slice(), b"a/b.lua"];
    let first = of_listing(folder.list(alloc, at), &paths);
    let one = of_reading(folder.read(alloc, at, main), b"return");
    let empty = of_reading(folder.read(alloc, at, other), b"");
    let last = of_listing(folder.list(alloc, at), &paths);
    [first, one, empty, last]
}

// The same of a folder whose calls of these numbers fail.
fn asked_failing(alloc: Global, numbers: &[u64]) -> Result<[Answer; 4], Memory> {
    let at = Text::of(alloc, b"game")?;
    let main = Text::of(alloc, b"main.lua")?;
    let other = Text::of(alloc, b"a/b.lua")?;
    let fails = Vec::from_slice(alloc, numbers)?;
    let mut folder = MemFolder::new(game(alloc)?, fails);
    Ok(asked(alloc, &mut folder, &at, &main, &other))
}

// The same of a quiet folder, under this path.
fn asked_quiet(alloc: Global, at: &[u8]) -> Result<[Answer; 4], Memory> {
    let at = Text::of(alloc, at)?;
    let main = Text::of(alloc, b"main.lua")?;
    let other = Text::of(alloc, b"a/b.lua")?;
    let mut folder = QuietFolder::new(game(alloc)?);
    Ok(asked(alloc, &mut folder, &at, &main, &other))
}

#[test]
fn calls_fail_by_their_numbers(rt: HostRuntime) -> Result<(), Fail> {
    let (right, failed) = (Answer::Right, Answer::Failed);
    let rows = [
        ([].as_slice(), [right, right, right, right]),
        (&[1], [failed, right, right, right]),
        (&[2], [right, failed, right, right]),
        (&[4, 2], [right, failed, right, failed]),
        (&[3, 3, 1, 9], [failed, right, failed, right]),
        (&[0, 5], [right, right, right, right]),
        (&[4, 3, 2, 1], [failed, failed, failed, failed]),
    ];
    for (numbers, answers) in rows {
        let found = asked_failing(rt.alloc(), numbers)?;
        assert!(rt; found == answers, "{numbers:?}");
    }
    Ok(())
}

#[test]
fn a_quiet_folder_never_fails(rt: HostRuntime) -> Result<(), Fail> {
    for at in [b"".as_slice(), b"game", b"\xff"] {
        let found = asked_quiet(rt.alloc(), at)?;
        assert!(rt; found == [Answer::Right; 4], "{at:?}");
    }
    Ok(())
}

fn listed<F: Folder>(alloc: Global, folder: &mut F) -> Result<Answer, Memory> {
    let at = Text::of(alloc, b"")?;
    Ok(of_listing(folder.list(alloc, &at), &[]))
}

#[test]
fn a_folder_may_be_empty(rt: HostRuntime) -> Result<(), Fail> {
    let alloc = rt.alloc();
    let mut quiet = QuietFolder::new(Vec::new(alloc));
    assert!(rt; listed(alloc, &mut quiet)? == Answer::Right);
    let mut failing = MemFolder::new(Vec::new(alloc), vec![in alloc; 2]?);
    assert!(rt; listed(alloc, &mut failing)? == Answer::Right);
    assert!(rt; listed(alloc, &mut failing)? == Answer::Failed);
    Ok(())
}
