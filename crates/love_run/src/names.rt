//! The names of a game's files.

ghost use Rattle.std.specs.Prelude.{◌≡◌, ◌+◌, ◌<◌, ◌≤◌, length, IfOk, IfSome, IsErrOf};
ghost use Rattle.std.specs.List.{Contains};
ghost use Rattle.std.specs.List.Sorted.{IsPermutation};
ghost use Rattle.love_base.specs.Fault.{HasRisen};
ghost use Rattle.love_base.specs.Folder.{paths};
ghost use Rattle.love_run.specs.Game.{HasNoMain, Rises, main_lua, most_files};

use crate::load_fault::LoadFault;
use love_base::{Folder, Text};
use std::alloc::Global;

// The file of a game that runs first.
const MAIN: &[u8] = b"main.lua";

// The most files of a game.
const MOST_FILES: usize = 1000;

// The names of all files in the folder `at`, byte by byte in order.
pub(crate) fn list_names<F: Folder>(
    alloc: Global,
    at: &Text,
    folder: &mut F,
) -> Result<Vec<Text>, LoadFault>
    ensures all { IfOk result (λ names. IfSome (F.files folder.old at.now) (λ files.
        IsPermutation (paths files) names.items)) }
    ensures rises { IfOk result (λ names. Rises names.items) }
    ensures main { IfOk result (λ names. Contains names.items main_lua) }
    ensures few { IfOk result (λ names. length names.items ≤ most_files) }
    ensures no_main { IsErrOf result LoadFault.NoMain
        → IfSome (F.files folder.old at.now) HasNoMain }
    ensures too_many { IsErrOf result LoadFault.TooLarge
        → IfSome (F.files folder.old at.now) (λ files. most_files < length files) }
    ensures failed { IsErrOf result LoadFault.Folder
        → HasRisen (F.faults folder.old) (F.faults folder.new) }
    ensures told { F.faults folder.old < F.faults folder.new → IsErrOf result LoadFault.Folder }
    ensures steady { ¬ IsErrOf result LoadFault.Folder
        → F.faults folder.new ≡ F.faults folder.old }
    ensures called { F.calls folder.new ≤ F.calls folder.old + 1 }
    ensures kept { F.files folder.new ≡ F.files folder.old }
{
    let main = Text::of(alloc, MAIN)?;
    let mut names = folder.list(alloc, at)?;
    if !names.contains(&main) {
        return Err(LoadFault::NoMain);
    }
    if names.len() > MOST_FILES {
        return Err(LoadFault::TooLarge);
    }
    if names.sort().is_err() {
        return Err(LoadFault::Memory);
    }
    Ok(names)
}
