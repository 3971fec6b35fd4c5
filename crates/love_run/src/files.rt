//! The files of a game.

ghost use Rattle.std.specs.Prelude.{◌≡◌, ◌+◌, ◌<◌, ◌≤◌, length, map, IfOk, IfSome, IsErrOf, IsSome};
ghost use Rattle.std.specs.Option.{ForSome};
ghost use Rattle.std.specs.List.{AllByRecursion};
ghost use Rattle.love_base.specs.Fault.{HasRisen};
ghost use Rattle.love_base.specs.Folder.{content};
ghost use Rattle.love_run.specs.Game.{IsFileOf, most_bytes, names_of, size_of};

use crate::load_fault::LoadFault;
use love_base::{Data, Folder, Text};
use std::alloc::Global;

// The most bytes of all files of a game together.
const MOST_BYTES: usize = 67_108_864;

// The files of these names in the folder `at`, in their order.
pub(crate) fn read_files<F: Folder>(
    alloc: Global,
    at: &Text,
    folder: &mut F,
    names: Vec<Text>,
) -> Result<Vec<(Text, Data)>, LoadFault>
    requires listed { ForSome (F.files folder.old at.now) (λ files.
        AllByRecursion (λ name. IsSome (content files name)) names.items) }
    ensures names { IfOk result (λ made. names_of made.items ≡ names.items) }
    ensures contents { IfOk result (λ made. IfSome (F.files folder.old at.now) (λ files.
        AllByRecursion (IsFileOf files) made.items)) }
    ensures too_large { IsErrOf result LoadFault.TooLarge
        → IfSome (F.files folder.old at.now) (λ files. most_bytes < size_of files names.items) }
    ensures main { ¬ IsErrOf result LoadFault.NoMain }
    ensures failed { IsErrOf result LoadFault.Folder
        → HasRisen (F.faults folder.old) (F.faults folder.new) }
    ensures told { F.faults folder.old < F.faults folder.new → IsErrOf result LoadFault.Folder }
    ensures called { F.calls folder.new ≤ F.calls folder.old + length names.items }
    ensures kept { F.files folder.new ≡ F.files folder.old }
{
    let mut made = Vec::new(alloc);
    let mut size = 0;
    for name in names {
        let file = read_file(alloc, at, folder, name)?;
        size += file.1.size();
        if size > MOST_BYTES {
            return Err(LoadFault::TooLarge);
        }
        if made.push(file).is_err() {
            return Err(LoadFault::Memory);
        }
    }
    Ok(made)
}

// The file of one name.
fn read_file<F: Folder>(
    alloc: Global,
    at: &Text,
    folder: &mut F,
    name: Text,
) -> Result<(Text, Data), LoadFault>
    requires { ForSome (F.files folder.old at.now) (λ files. IsSome (content files name)) }
    ensures name { IfOk result (λ file. file.0 ≡ name) }
    ensures content { IfOk result (λ file. IfSome (F.files folder.old at.now) (λ files.
        IsFileOf files file)) }
    ensures read { ¬ IsErrOf result LoadFault.NoMain × ¬ IsErrOf result LoadFault.TooLarge }
    ensures failed { IsErrOf result LoadFault.Folder
        → HasRisen (F.faults folder.old) (F.faults folder.new) }
    ensures steady { ¬ IsErrOf result LoadFault.Folder
        → F.faults folder.new ≡ F.faults folder.old }
    ensures called { F.calls folder.new ≤ F.calls folder.old + 1 }
    ensures kept { F.files folder.new ≡ F.files folder.old }
{
    let bytes = folder.read(alloc, at, &name)?;
    let content = Data::new(alloc, bytes.as_slice(), None)?;
    Ok((name, content))
}
