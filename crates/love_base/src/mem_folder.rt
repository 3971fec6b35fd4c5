ghost use Rattle.std.specs.Prelude.{◌≡◌, ◌↔◌, Option, IfOk, IsErrOf, IsSome, IsTrue, nat_eq};
ghost use Rattle.std.specs.List.{IsDistinct};
ghost use Rattle.std.specs.Cmp.Lexicographic.{pointwise};
ghost use Rattle.love_base.specs.Fault.{HasRisen};
ghost use Rattle.love_base.specs.Folder.{content, paths, stored};
ghost use Rattle.love_base.specs.Scripted.{after_call, fails_next, unused};

use crate::file_table::FileTable;
use crate::script::Script;
use crate::{Folder, FolderErr, Text};
use std::alloc::Global;
use std::marker::Model;

/// A folder in memory that tells its files, and fails at chosen calls. It answers alike whatever
/// folder it is asked for. Its calls look at the files in order, and copy what they give.
#[derive(Debug, Drop)]
pub struct MemFolder {
    files: FileTable,
    script: Script,
}

impl Model for MemFolder {
    ghost use Rattle.love_base.specs.Scripted.{ScriptedFolder};

    ghost Value = { ScriptedFolder };

    ghost view = { λ folder. record { files = folder.files; script = folder.script } };
}

impl MemFolder {
    /// A folder of these files, by path and bytes, no two of one path. The calls whose numbers,
    /// counted from 1 over `list` and `read` alike, stand in `fails` answer [`FolderErr::Failed`].
    /// Constant time.
    pub fn new(files: Vec<(Text, Vec<u8>)>, fails: Vec<u64>) -> MemFolder
        requires { IsDistinct (pointwise nat_eq) (paths (stored files.items)) }
        ensures files { result.files ≡ stored files.items }
        ensures script { result.script ≡ unused fails.items }
    {
        MemFolder {
            files: FileTable::new(files),
            script: Script::new(fails),
        }
    }
}

impl Folder for MemFolder {
    ghost faults = { λ folder. folder.script.faults };

    ghost files = { λ folder _. Option.Some folder.files };

    ghost calls = { λ folder. folder.script.calls };

    fn list(&mut self, alloc: Global, _at: &Text) -> Result<Vec<Text>, FolderErr>
        ensures told { IfOk result (λ names. names.items ≡ paths self.old.files) }
        ensures differ { IfOk result (λ names. IsDistinct (pointwise nat_eq) names.items) }
        ensures fails { IsErrOf result FolderErr.Failed ↔ IsTrue (fails_next self.old.script) }
        ensures failed { IsErrOf result FolderErr.Failed
            → HasRisen self.old.script.faults self.new.script.faults }
        ensures script { self.new.script ≡ after_call self.old.script }
        ensures kept { self.new.files ≡ self.old.files }
    {
        if self.script.call_fails() {
            return Err(FolderErr::Failed);
        }
        Ok(self.files.paths(alloc)?)
    }

    fn read(&mut self, alloc: Global, _at: &Text, name: &Text) -> Result<Vec<u8>, FolderErr>
        requires { IsSome (content self.old.files name.now) }
        ensures told { IfOk result (λ bytes.
            content self.old.files name.now ≡ Option.Some bytes.items) }
        ensures fails { IsErrOf result FolderErr.Failed ↔ IsTrue (fails_next self.old.script) }
        ensures failed { IsErrOf result FolderErr.Failed
            → HasRisen self.old.script.faults self.new.script.faults }
        ensures script { self.new.script ≡ after_call self.old.script }
        ensures kept { self.new.files ≡ self.old.files }
    {
        if self.script.call_fails() {
            return Err(FolderErr::Failed);
        }
        Ok(self.files.content(alloc, name)?)
    }
}
