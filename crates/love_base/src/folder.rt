ghost use Rattle.std.specs.Prelude.{◌≡◌, ◌+◌, ◌≤◌, ℕ, List, Option, IfOk, IfSome, IsSome, IsErrOf, nat_eq};
ghost use Rattle.std.specs.Option.{ForSome};
ghost use Rattle.std.specs.List.{IsDistinct};
ghost use Rattle.std.specs.Cmp.Lexicographic.{pointwise};
ghost use Rattle.love_base.specs.Fault.{HasRisen};
ghost use Rattle.love_base.specs.Folder.{File, paths, content};

use crate::{Memory, Text};
use std::alloc::Global;
use std::io;
use std::io::ErrorKind;

/// Why a call of a [`Folder`] gave nothing.
#[derive(Clone, Copy, Debug, PartialEq, Eq)]
pub enum FolderErr {
    /// The folder or the file can't be read. The folder counts it as a fault.
    Failed = 1,
    /// Want of memory.
    Memory,
}

impl From<Memory> for FolderErr {
    ghost use Rattle.love_base.specs.declared.folder.FolderErr.TheVariants.{Memory};

    ghost from_gives = { λ _ fault. fault ≡ Memory };

    fn from(_want: Memory) -> FolderErr {
        FolderErr::Memory
    }
}

impl From<io::Error> for FolderErr {
    ghost use Rattle.std.specs.Prelude.{◌≡◌, ◌↔◌};
    ghost use Rattle.std.specs.IoError.{error_kind};
    ghost use Rattle.std.specs.declared.io.ErrorKind.TheVariants.{OutOfMemory};
    ghost use Rattle.love_base.specs.declared.folder.FolderErr.TheVariants.{Memory};

    ghost from_gives = { λ fault own. (own ≡ Memory) ↔ (error_kind fault ≡ OutOfMemory) };

    fn from(fault: io::Error) -> FolderErr {
        match fault.kind() {
            ErrorKind::OutOfMemory => FolderErr::Memory,
            _ => FolderErr::Failed,
        }
    }
}

/// A folder of files, as a game is one.
pub trait Folder {
    /// How many calls have failed so far: only a failure raises it. A count that reaches the end of
    /// its type stays there.
    ghost faults: { Self → ℕ };

    /// The files below a folder, by its path, where the folder tells them. Those of the real file
    /// system don't.
    ghost files: { Self → List ℕ → Option (List File) };

    /// How many calls were made, where the folder counts them. One that counts none stays at its
    /// first number, so what a clause says of calls is said of folders that count.
    ghost calls: { Self → ℕ };

    /// The paths of all files below the folder `at`, with `/` between their parts, no two alike.
    ///
    /// # Errors
    ///
    /// [`FolderErr::Failed`] where the folder can't be read, [`FolderErr::Memory`] where there is
    /// no room for the paths.
    fn list(&mut self, alloc: Global, at: &Text) -> Result<Vec<Text>, FolderErr>
        ensures told { IfOk result (λ names.
            IfSome (files self.old at.now) (λ files. names.items ≡ paths files)) }
        ensures differ { IfOk result (λ names. IsDistinct (pointwise nat_eq) names.items) }
        ensures failed { IsErrOf result FolderErr.Failed
            → HasRisen (faults self.old) (faults self.new) }
        ensures counted { faults self.old ≤ faults self.new }
        ensures steady { ¬ IsErrOf result FolderErr.Failed → faults self.new ≡ faults self.old }
        ensures called { calls self.new ≤ calls self.old + 1 }
        ensures kept { files self.new ≡ files self.old };

    /// The bytes of the file `name` below the folder `at`, where `name` is a path that `list` gave.
    ///
    /// # Errors
    ///
    /// [`FolderErr::Failed`] where the file can't be read, [`FolderErr::Memory`] where there is no
    /// room for its bytes.
    fn read(&mut self, alloc: Global, at: &Text, name: &Text) -> Result<Vec<u8>, FolderErr>
        requires { ForSome (files self.old at.now) (λ files. IsSome (content files name.now)) }
        ensures told { IfOk result (λ bytes.
            IfSome (files self.old at.now) (λ files.
            content files name.now ≡ Option.Some bytes.items)) }
        ensures failed { IsErrOf result FolderErr.Failed
            → HasRisen (faults self.old) (faults self.new) }
        ensures counted { faults self.old ≤ faults self.new }
        ensures steady { ¬ IsErrOf result FolderErr.Failed → faults self.new ≡ faults self.old }
        ensures called { calls self.new ≤ calls self.old + 1 }
        ensures kept { files self.new ≡ files self.old };
}
