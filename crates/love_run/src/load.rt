//! A game's folder, read whole.

ghost use Rattle.std.specs.Prelude.{◌≡◌, ◌+◌, ◌<◌, ◌≤◌, length, map, IfOk, IfSome, IsErrOf};
ghost use Rattle.std.specs.List.{AllByRecursion};
ghost use Rattle.love_base.specs.Fault.{HasRisen};
ghost use Rattle.lua_state.specs.Programs.{given, IsBuilt};
ghost use Rattle.lua_state.specs.Runs.{HasMain};
ghost use Rattle.love_run.specs.Game.{HasNoMain, IsGame, IsTooLarge, most_files};

use crate::files::read_files;
use crate::load_fault::LoadFault;
use crate::names::list_names;
use love_base::{Folder, Text};
use lua_code::Program;
use lua_state::build;
use std::alloc::Global;

// The programs of the game in the folder `at`.
pub(crate) fn load<F: Folder>(
    alloc: Global,
    at: &Text,
    folder: &mut F,
) -> Result<Program, LoadFault>
    ensures game { IfOk result (λ program.
        IfSome (F.files folder.old at.now) (λ files. IsGame files (map given program.files))) }
    ensures built { IfOk result (λ program. AllByRecursion IsBuilt program.files) }
    ensures main { IfOk result (λ program. HasMain (map given program.files)) }
    ensures no_main { IsErrOf result LoadFault.NoMain
        → IfSome (F.files folder.old at.now) HasNoMain }
    ensures too_large { IsErrOf result LoadFault.TooLarge
        → IfSome (F.files folder.old at.now) IsTooLarge }
    ensures failed { IsErrOf result LoadFault.Folder
        → HasRisen (F.faults folder.old) (F.faults folder.new) }
    ensures told { F.faults folder.old < F.faults folder.new → IsErrOf result LoadFault.Folder }
    ensures called { F.calls folder.new ≤ F.calls folder.old + (most_files + 1) }
    ensures kept { F.files folder.new ≡ F.files folder.old }
{
    let names = list_names(alloc, at, folder)?;
    match read_files(alloc, at, folder, names) {
        Ok(files) => Ok(build(alloc, files)?),
        Err(fault) => Err(fault),
    }
}
