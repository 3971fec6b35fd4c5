ghost use Rattle.std.specs.Prelude.{◌≡◌, IfOk, IsSome, Option, nat_eq};
ghost use Rattle.std.specs.List.{IsDistinct};
ghost use Rattle.std.specs.Cmp.Lexicographic.{pointwise};
ghost use Rattle.love_base.specs.Folder.{content, paths, stored};

use crate::{Memory, Text};
use std::alloc::Global;
use std::marker::Model;

// Files in memory, no two of one path.
#[derive(Debug, Drop)]
pub(crate) struct FileTable {
    files: Vec<(Text, Vec<u8>)>,
}

impl Model for FileTable {
    ghost use Rattle.std.specs.Prelude.{List, nat_eq};
    ghost use Rattle.std.specs.List.{IsDistinct};
    ghost use Rattle.std.specs.Cmp.Lexicographic.{pointwise};
    ghost use Rattle.love_base.specs.Folder.{File, paths, stored};

    ghost Value = { List File };

    ghost view = { λ table. stored table.files.items };

    ghost invariant = { λ table. IsDistinct (pointwise nat_eq) (paths (stored table.files.items)) };
}

impl FileTable {
    pub(crate) fn new(files: Vec<(Text, Vec<u8>)>) -> FileTable
        requires { IsDistinct (pointwise nat_eq) (paths (stored files.items)) }
        ensures { result ≡ stored files.items }
    {
        FileTable { files }
    }

    // A copy of each path, in order.
    pub(crate) fn paths(&self, alloc: Global) -> Result<Vec<Text>, Memory>
        ensures told { IfOk result (λ names. names.items ≡ paths self.now) }
        ensures differ { IfOk result (λ names. IsDistinct (pointwise nat_eq) names.items) }
    {
        let mut names = Vec::with_capacity(alloc, self.files.len())?;
        for (path, _) in &self.files {
            names.push(path.copy(alloc)?)?;
        }
        Ok(names)
    }

    // A copy of the bytes of the file of that path.
    pub(crate) fn content(&self, alloc: Global, path: &Text) -> Result<Vec<u8>, Memory>
        requires { IsSome (content self.now path.now) }
        ensures { IfOk result (λ bytes. content self.now path.now ≡ Option.Some bytes.items) }
    {
        for (other, bytes) in &self.files {
            if other.bytes() == path.bytes() {
                return Ok(Vec::from_slice(alloc, bytes.as_slice())?);
            }
        }
        unreachable!()
    }
}
