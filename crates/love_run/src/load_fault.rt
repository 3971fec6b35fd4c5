//! Why a game isn't loaded.

use love_base::{FolderErr, Memory};

// Why a game isn't loaded.
#[derive(Clone, Copy, Debug, PartialEq, Eq)]
pub(crate) enum LoadFault {
    // The folder has no `main.lua`.
    NoMain,
    // The folder or a file of it can't be read.
    Folder,
    // It has over 1,000 files, or over 67,108,864 bytes.
    TooLarge,
    Memory,
}

impl From<Memory> for LoadFault {
    ghost use Rattle.std.specs.Prelude.{◌≡◌};
    ghost use Rattle.love_run.specs.declared.load_fault.LoadFault.TheVariants.{Memory};

    ghost from_gives = { λ _ fault. fault ≡ Memory };

    fn from(_want: Memory) -> LoadFault {
        LoadFault::Memory
    }
}

impl From<FolderErr> for LoadFault {
    ghost use Rattle.std.specs.Prelude.{◌≡◌};
    ghost use Rattle.love_run.specs.Game.{load_fault_of};

    ghost from_gives = { λ fault own. own ≡ load_fault_of fault };

    fn from(fault: FolderErr) -> LoadFault {
        match fault {
            FolderErr::Failed => LoadFault::Folder,
            FolderErr::Memory => LoadFault::Memory,
        }
    }
}
