ghost use Rattle.std.specs.Prelude.{◌≡◌, ◌↔◌, IfErr, IfOk, IsErr, IsTrue, nat_eq, string_bytes};
ghost use Rattle.std.specs.IoError.{error_kind};
ghost use Rattle.std.specs.List.{IsDistinct};
ghost use Rattle.std.specs.List.Sorted.{IsStrictlySortedBy};
ghost use Rattle.std.specs.Ordering.{nat_cmp};
ghost use Rattle.std.specs.Cmp.Lexicographic.{pointwise, slice_cmp};
ghost use Rattle.love_base.specs.Folder.{joined};
ghost use Rattle.love_base.specs.Link.{leads_nowhere};

use crate::Text;
use std::alloc::{AllocError, Global};
use std::fs::Metadata;
use std::io::ErrorKind;
use std::rt::Files;
use std::{fs, io};

// How deep folders may be nested below the one that is listed.
const DEEPEST: u8 = 16;

// The text where it is UTF-8, as every path of the file system has to be.
pub(crate) fn utf8(text: &Text) -> io::Result<&str>
    ensures same { IfOk result (λ found. found.now ≡ text.now) }
{
    match str::from_utf8(text.bytes()) {
        Ok(text) => Ok(text),
        Err(_) => Err(io::Error::from(ErrorKind::InvalidFilename)),
    }
}

// The path of what has this name in a folder. What is right in the folder at the start, whose own
// path is empty, has its name alone.
pub(crate) fn join(alloc: Global, folder: &str, name: &str) -> Result<String, AllocError>
    ensures { IfOk result (λ path. string_bytes path ≡ joined folder.now name.now) }
{
    let mut path = String::from_str(alloc, folder)?;
    if !path.is_empty() {
        path.push('/')?;
    }
    path.push_str(name)?;
    Ok(path)
}

// The paths of the regular files below a folder, in byte order, no two alike.
pub(crate) fn list_files<R: Files + AllocGlobal + Clone + Drop>(
    rt: &R,
    alloc: Global,
    at: &Text,
) -> io::Result<Vec<Text>>
    ensures sorted { IfOk result (λ names. IsStrictlySortedBy (slice_cmp nat_cmp) names.items) }
    ensures differ { IfOk result (λ names. IsDistinct (pointwise nat_eq) names.items) }
{
    let mut names = walk(rt, alloc, utf8(at)?)?;
    names.sort()?;
    // A folder that changes while it is read may name a file twice.
    names.dedup();
    Ok(names)
}

// A folder that is still to be opened.
#[derive(Drop)]
struct Unopened {
    // Its path below the root, which is empty for the root itself.
    path: String,
    // How deep it is nested below the root.
    depth: u8,
}

// The paths of the files below `root`. The folder found last is opened first, so that a nesting
// without end, as a link to a folder above itself makes one, is met in few steps; and nothing of it
// is on the stack.
fn walk<R: Files + AllocGlobal + Clone + Drop>(
    rt: &R,
    alloc: Global,
    root: &str,
) -> io::Result<Vec<Text>> {
    let mut names = Vec::new(alloc);
    let mut unopened = Vec::new(alloc);
    let path = String::new(alloc);
    unopened.push(Unopened { path, depth: 0 })?;
    // No machine has so many folders: the number is for the proof that the walk ends.
    let mut left = u64::MAX;
    while let Some(folder) = unopened.pop() {
        if left == 0 {
            return Err(io::Error::from(ErrorKind::Unsupported));
        }
        left -= 1;
        open(rt, alloc, root, &folder, &mut names, &mut unopened)?;
    }
    Ok(names)
}

// Adds the files right in this folder to `names`, and the folders right in it to `unopened`.
fn open<R: Files + AllocGlobal + Clone + Drop>(
    rt: &R,
    alloc: Global,
    root: &str,
    folder: &Unopened,
    names: &mut Vec<Text>,
    unopened: &mut Vec<Unopened>,
) -> io::Result<()> {
    let at = folder.path.as_str();
    for entry in fs::read_dir(rt, join(alloc, root, at)?)? {
        let entry = entry?;
        let path = join(alloc, at, entry.file_name())?;
        match kind_of(fs::metadata(rt, entry.path()))? {
            Kind::File => names.push(Text::from_vec(path.into_bytes()))?,
            Kind::Folder if folder.depth >= DEEPEST => {
                return Err(io::Error::from(ErrorKind::Unsupported));
            }
            Kind::Folder => {
                let depth = folder.depth + 1;
                unopened.push(Unopened { path, depth })?;
            }
            Kind::Neither => {}
        }
    }
    Ok(())
}

enum Kind {
    File,
    Folder,
    Neither,
}

// What an entry, or what the link that it is leads to, is. A link that leads nowhere, through a
// file or in a circle is neither a file nor a folder. What can't be looked at for another cause is
// not passed over.
fn kind_of(found: io::Result<Metadata>) -> io::Result<Kind>
    ensures { IfErr found (λ fault. IsErr result ↔ ¬ IsTrue (leads_nowhere (error_kind fault))) }
{
    match found {
        Ok(metadata) if metadata.is_dir() => Ok(Kind::Folder),
        Ok(metadata) if metadata.is_file() => Ok(Kind::File),
        Ok(_) => Ok(Kind::Neither),
        Err(fault) if leads_nowhere(fault.kind()) => Ok(Kind::Neither),
        Err(fault) => Err(fault),
    }
}

fn leads_nowhere(kind: ErrorKind) -> bool
    ensures { result ≡ leads_nowhere kind }
{
    matches!(
        kind,
        ErrorKind::NotFound | ErrorKind::NotADirectory | ErrorKind::FilesystemLoop
    )
}
