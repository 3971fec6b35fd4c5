ghost use Rattle.std.specs.Prelude.{◌≡◌, Option, IsErrOf, IfOk, IsSome, nat_eq};
ghost use Rattle.std.specs.List.{IsDistinct};
ghost use Rattle.std.specs.Cmp.Lexicographic.{pointwise};
ghost use Rattle.love_base.specs.Folder.{content, paths, stored};

use crate::{Folder, FolderErr, MemFolder, Text};
use std::alloc::Global;
use std::marker::Model;

/// A [`MemFolder`] that never fails.
#[derive(Debug, Drop)]
pub struct QuietFolder {
    folder: MemFolder,
}

impl Model for QuietFolder {
    ghost use Rattle.std.specs.Prelude.{◌≡◌, [], List};
    ghost use Rattle.love_base.specs.Folder.{File};

    ghost Value = { List File };

    ghost view = { λ quiet. quiet.folder.files };

    ghost invariant = { λ quiet. quiet.folder.script.fails ≡ [] };
}

impl QuietFolder {
    /// A folder of these files, by path and bytes, no two of one path. Constant time.
    pub fn new(files: Vec<(Text, Vec<u8>)>) -> QuietFolder
        requires { IsDistinct (pointwise nat_eq) (paths (stored files.items)) }
        ensures { result ≡ stored files.items }
    {
        let fails = Vec::new(*files.allocator());
        QuietFolder {
            folder: MemFolder::new(files, fails),
        }
    }
}

impl Folder for QuietFolder {
    ghost faults = { λ _. 0 };

    ghost files = { λ folder _. Option.Some folder };

    ghost calls = { λ _. 0 };

    fn list(&mut self, alloc: Global, at: &Text) -> Result<Vec<Text>, FolderErr>
        ensures told { IfOk result (λ names. names.items ≡ paths self.old) }
        ensures differ { IfOk result (λ names. IsDistinct (pointwise nat_eq) names.items) }
        ensures quiet { ¬ IsErrOf result FolderErr.Failed }
        ensures kept { self.new ≡ self.old }
    {
        self.folder.list(alloc, at)
    }

    fn read(&mut self, alloc: Global, at: &Text, name: &Text) -> Result<Vec<u8>, FolderErr>
        requires { IsSome (content self.old name.now) }
        ensures told { IfOk result (λ bytes. content self.old name.now ≡ Option.Some bytes.items) }
        ensures quiet { ¬ IsErrOf result FolderErr.Failed }
        ensures kept { self.new ≡ self.old }
    {
        self.folder.read(alloc, at, name)
    }
}
