use love_base::{Folder, FolderErr, Memory, RealFolder, Text};
use std::os::unix::fs::{PermissionsExt, symlink};
use std::test::Fail;
use std::{fs, process};

// What is made in a folder, by its path there.
#[derive(Clone, Copy)]
enum Entry<'a> {
    Folder(&'a str),
    File(&'a str, &'a [u8]),
    Link(&'a str, &'a str),
}

// The path of what has this path in the folder.
fn below(rt: &HostRuntime, root: &str, path: &str) -> Result<String, Memory> {
    Ok(format!(in rt.alloc(); "{root}/{path}")?)
}

fn make(rt: &HostRuntime, root: &str, entry: Entry<'_>) -> Result<(), Fail> {
    match entry {
        Entry::Folder(path) => fs::create_dir_all(rt, below(rt, root, path)?)?,
        Entry::File(path, bytes) => fs::write(rt, below(rt, root, path)?, bytes)?,
        Entry::Link(path, to) => symlink(rt, to, below(rt, root, path)?)?,
    }
    Ok(())
}

// A fresh folder below `/tmp` with these entries, which the test removes.
fn fresh_folder(rt: &HostRuntime, test: &str, entries: &[Entry<'_>]) -> Result<String, Fail> {
    let id = process::id(rt.process());
    let root = format!(in rt.alloc(); "/tmp/love_base_{test}_{id}")?;
    if fs::exists(rt, root.as_str())? {
        fs::remove_dir_all(rt, root.as_str())?;
    }
    fs::create_dir(rt, root.as_str())?;
    for entry in entries {
        make(rt, root.as_str(), *entry)?;
    }
    Ok(root)
}

// The names, each ended by a newline.
fn lines(rt: &HostRuntime, names: &[Text]) -> Result<String, Fail> {
    let mut lines = String::new(rt.alloc());
    for name in names {
        lines.push_str(str::from_utf8(name.bytes())?)?;
        lines.push('\n')?;
    }
    Ok(lines)
}

// Whether the real folder lists so much, or fails.
fn lists(rt: &HostRuntime, at: &[u8], wanted: Option<&str>) -> Result<bool, Fail> {
    let at = Text::of(rt.alloc(), at)?;
    match RealFolder::new(rt.clone()?).list(rt.alloc(), &at) {
        Ok(names) => Ok(Some(lines(rt, &names)?.as_str()) == wanted),
        Err(FolderErr::Failed) => Ok(wanted.is_none()),
        Err(FolderErr::Memory) => Err(Memory.into()),
    }
}

// What the real folder reads, or nothing where it fails.
fn reading(rt: &HostRuntime, at: &str, name: &[u8]) -> Result<Option<Vec<u8>>, Fail> {
    let at = Text::of(rt.alloc(), at.as_bytes())?;
    let name = Text::of(rt.alloc(), name)?;
    match RealFolder::new(rt.clone()?).read(rt.alloc(), &at, &name) {
        Ok(bytes) => Ok(Some(bytes)),
        Err(FolderErr::Failed) => Ok(None),
        Err(FolderErr::Memory) => Err(Memory.into()),
    }
}

fn is_content(read: &Option<Vec<u8>>, wanted: Option<&[u8]>) -> bool {
    match read {
        Some(bytes) => Some(bytes.as_slice()) == wanted,
        None => wanted.is_none(),
    }
}

// Lists the folders of these paths in a fresh folder.
fn check_lists(
    rt: &HostRuntime,
    test: &str,
    entries: &[Entry<'_>],
    rows: &[(&str, Option<&str>)],
) -> Result<(), Fail> {
    let root = fresh_folder(rt, test, entries)?;
    for (path, wanted) in rows {
        let at = format!(in rt.alloc(); "{root}{path}")?;
        if !lists(rt, at.as_bytes(), *wanted)? {
            return Err(at.as_str().into());
        }
    }
    fs::remove_dir_all(rt, root.as_str())?;
    Ok(())
}

#[test]
fn lists_the_files_of_nested_folders_in_byte_order(rt: HostRuntime) -> Result<(), Fail> {
    let entries = [
        Entry::Folder("a/deep/deeper"),
        Entry::Folder("b"),
        Entry::Folder("empty/empty"),
        Entry::Folder("a b"),
        Entry::File("main.lua", b""),
        Entry::File("a/deep/deeper/x", b""),
        Entry::File("a/y", b""),
        Entry::File("b/.hidden", b""),
        Entry::File("a b/z", b""),
        Entry::File("a.lua", b""),
        Entry::File("é", b""),
        Entry::Link("nowhere", "missing"),
        Entry::Link("b/linked", "../main.lua"),
        Entry::Link("other", "a/deep"),
    ];
    let listed =
        "a b/z\na.lua\na/deep/deeper/x\na/y\nb/.hidden\nb/linked\nmain.lua\nother/deeper/x\né\n";
    check_lists(&rt, "nested", &entries, &[("", Some(listed))])
}

#[test]
fn lists_an_empty_folder_and_no_missing_one(rt: HostRuntime) -> Result<(), Fail> {
    let entries = [
        Entry::Folder("empty"),
        Entry::File("file", b""),
        Entry::Link("nowhere", "missing"),
        Entry::Link("linked", "empty"),
    ];
    let rows = [
        ("/empty", Some("")),
        ("/linked", Some("")),
        ("/empty/", Some("")),
        ("/missing", None),
        ("/file", None),
        ("/nowhere", None),
        ("/a\0b", None),
    ];
    check_lists(&rt, "empty", &entries, &rows)
}

#[test]
fn lists_no_folder_without_a_name(rt: HostRuntime) -> Result<(), Fail> {
    for path in [b"".as_slice(), b"/tmp/\xff"] {
        assert!(rt; lists(&rt, path, None)?, "{path:?}");
    }
    Ok(())
}

#[test]
fn lists_sixteen_nested_folders_and_not_seventeen(rt: HostRuntime) -> Result<(), Fail> {
    let sixteen = Entry::Folder("1/2/3/4/5/6/7/8/9/10/11/12/13/14/15/16");
    let file = Entry::File("1/2/3/4/5/6/7/8/9/10/11/12/13/14/15/16/file", b"");
    let listed = "1/2/3/4/5/6/7/8/9/10/11/12/13/14/15/16/file\n";
    check_lists(&rt, "sixteen", &[sixteen, file], &[("", Some(listed))])?;
    let seventeen = Entry::Folder("1/2/3/4/5/6/7/8/9/10/11/12/13/14/15/16/17");
    check_lists(&rt, "seventeen", &[seventeen, file], &[("", None)])
}

// No file system has names of over 255 bytes: the system can't look at what such a link leads to,
// and doesn't say that it leads nowhere.
#[test]
fn lists_no_link_to_itself_and_none_that_cannot_be_looked_at(rt: HostRuntime) -> Result<(), Fail> {
    check_lists(&rt, "loop", &[Entry::Link("again", ".")], &[("", None)])?;
    let name = [b'x'; 300];
    let long = Entry::Link("long", str::from_utf8(&name)?);
    check_lists(&rt, "long", &[long], &[("", None)])
}

#[test]
fn reads_what_a_file_holds(rt: HostRuntime) -> Result<(), Fail> {
    let many = [b'x'; 100_000];
    let entries = [
        Entry::Folder("a"),
        Entry::File("main.lua", b"any\0bytes\xff"),
        Entry::File("a/none", b""),
        Entry::File("many", &many),
        Entry::Link("nowhere", "missing"),
    ];
    let root = fresh_folder(&rt, "read", &entries)?;
    let rows = [
        (b"main.lua".as_slice(), Some(b"any\0bytes\xff".as_slice())),
        (b"a/none", Some(b"")),
        (b"many", Some(&many)),
        (b"missing", None),
        (b"nowhere", None),
        (b"a", None),
        (b"main.lua/none", None),
        (b"\xff", None),
    ];
    for (name, wanted) in rows {
        let read = reading(&rt, root.as_str(), name)?;
        assert!(rt; is_content(&read, wanted), "{name:?}");
    }
    fs::remove_dir_all(&rt, root.as_str())?;
    Ok(())
}

// The first 67,108,865 bytes show that it has more than a whole game may have.
#[test]
fn reads_a_file_that_is_too_long_only_in_part(rt: HostRuntime) -> Result<(), Fail> {
    let root = fresh_folder(&rt, "long_file", &[])?;
    let path = below(&rt, root.as_str(), "main.lua")?;
    fs::create(&rt, path.as_str())?.set_len(67_108_866)?;
    let read = reading(&rt, root.as_str(), b"main.lua")?;
    assert!(rt; matches!(&read, Some(bytes) if bytes.len() == 67_108_865));
    fs::remove_dir_all(&rt, root.as_str())?;
    Ok(())
}

fn set_mode(rt: &HostRuntime, root: &str, path: &str, mode: u32) -> Result<(), Fail> {
    fs::set_permissions(rt, below(rt, root, path)?, fs::Permissions::from_mode(mode))?;
    Ok(())
}

// Whether the file can be neither read nor listed. The superuser may read all: where the mode bars
// nothing there is nothing to see.
fn is_barred(rt: &HostRuntime, root: &str) -> Result<bool, Fail> {
    if fs::read(rt, below(rt, root, "file")?).is_ok() {
        return Ok(true);
    }
    Ok(reading(rt, root, b"file")?.is_none() && lists(rt, root.as_bytes(), None)?)
}

#[test]
fn neither_reads_nor_lists_what_it_may_not(rt: HostRuntime) -> Result<(), Fail> {
    let entries = [Entry::Folder("folder"), Entry::File("file", b"secret")];
    let root = fresh_folder(&rt, "barred", &entries)?;
    set_mode(&rt, root.as_str(), "file", 0)?;
    set_mode(&rt, root.as_str(), "folder", 0)?;
    assert!(rt; is_barred(&rt, root.as_str())?);
    set_mode(&rt, root.as_str(), "folder", 0o700)?;
    fs::remove_dir_all(&rt, root.as_str())?;
    Ok(())
}
