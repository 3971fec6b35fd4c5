ghost use Rattle.std.specs.Prelude.{◌≡◌, Option, IfOk, IsErrOf, Ok, nat_eq};
ghost use Rattle.std.specs.List.{IsDistinct};
ghost use Rattle.std.specs.List.Sorted.{IsStrictlySortedBy};
ghost use Rattle.std.specs.Ordering.{nat_cmp};
ghost use Rattle.std.specs.Cmp.Lexicographic.{pointwise, slice_cmp};
ghost use Rattle.love_base.specs.Fault.{HasRisen, next_count};

use crate::folder_walk::{join, list_files, utf8};
use crate::{Folder, FolderErr, Text};
use std::alloc::Global;
use std::io::Read;
use std::marker::Model;
use std::rt::Files;
use std::{fs, io};

// The most bytes that are read of a file: one more than a whole game may have.
const MOST_READ: u64 = 67_108_865;

/// The folders of the file system, as the process sees them.
///
/// `list` gives the regular files, also those that a link leads to, in the byte order of their
/// paths, and passes over what is no file and no folder, as a link that leads nowhere. A name that
/// isn't UTF-8, folders nested over 16 deep, and a folder below that can't be opened are failures
/// of the whole listing. It opens each folder once and looks at each entry once, then sorts. `read`
/// reads one file whole, but of one that is longer than a whole game may be, 67,108,864 bytes, only
/// the first 67,108,865: they show that it is too long.
#[derive(Drop)]
pub struct RealFolder<R: Files + AllocGlobal + Clone + Drop> {
    rt: R,
    faults: u64,
}

impl<R: Files + AllocGlobal + Clone + Drop> Model for RealFolder<R> {
    ghost use Rattle.std.specs.Prelude.{ℕ};

    ghost Value = { ℕ };

    ghost view = { λ folder. folder.faults };
}

impl<R: Files + AllocGlobal + Clone + Drop> RealFolder<R> {
    /// The file system that `rt` reaches.
    pub fn new(rt: R) -> RealFolder<R>
        ensures { result ≡ 0 }
    {
        RealFolder { rt, faults: 0 }
    }

    // Hands an outcome on, and counts a failure.
    fn counted<T>(&mut self, outcome: io::Result<T>) -> Result<T, FolderErr>
        ensures same { IfOk result (λ value. outcome ≡ Ok value) }
        ensures failed { IsErrOf result FolderErr.Failed → HasRisen self.old self.new }
        ensures counted { IsErrOf result FolderErr.Failed → self.new ≡ next_count self.old }
        ensures steady { ¬ IsErrOf result FolderErr.Failed → self.new ≡ self.old }
    {
        let outcome = outcome.map_err(FolderErr::from);
        if let Err(FolderErr::Failed) = &outcome {
            self.faults = self.faults.saturating_add(1);
        }
        outcome
    }
}

impl<R: Files + AllocGlobal + Clone + Drop> Folder for RealFolder<R> {
    ghost faults = { λ folder. folder };

    ghost files = { λ _ _. Option.None };

    ghost calls = { λ _. 0 };

    fn list(&mut self, alloc: Global, at: &Text) -> Result<Vec<Text>, FolderErr>
        ensures sorted { IfOk result (λ names. IsStrictlySortedBy (slice_cmp nat_cmp) names.items) }
        ensures differ { IfOk result (λ names. IsDistinct (pointwise nat_eq) names.items) }
        ensures failed { IsErrOf result FolderErr.Failed → HasRisen self.old self.new }
        ensures counted { IsErrOf result FolderErr.Failed → self.new ≡ next_count self.old }
        ensures steady { ¬ IsErrOf result FolderErr.Failed → self.new ≡ self.old }
    {
        let listed = list_files(&self.rt, alloc, at);
        self.counted(listed)
    }

    fn read(&mut self, alloc: Global, at: &Text, name: &Text) -> Result<Vec<u8>, FolderErr>
        ensures failed { IsErrOf result FolderErr.Failed → HasRisen self.old self.new }
        ensures counted { IsErrOf result FolderErr.Failed → self.new ≡ next_count self.old }
        ensures steady { ¬ IsErrOf result FolderErr.Failed → self.new ≡ self.old }
    {
        let bytes = read_file(&self.rt, alloc, at, name);
        self.counted(bytes)
    }
}

fn read_file<R: Files>(rt: &R, alloc: Global, at: &Text, name: &Text) -> io::Result<Vec<u8>> {
    let path = join(alloc, utf8(at)?, utf8(name)?)?;
    let mut bytes = Vec::new(alloc);
    fs::open(rt, path)?.take(MOST_READ).read_to_end(&mut bytes)?;
    Ok(bytes)
}
