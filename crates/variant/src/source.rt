ghost use Rattle.std.specs.Prelude.{◌≡◌, IfOk};

use love_base::{Data, Memory, Text};
use std::alloc::Global;

/// What a Thread runs (LÖVE wiki, `love.thread.newThread`).
#[derive(Debug, Drop)]
pub enum Source {
    /// The file of this name in the game's folder.
    File(Text),
    /// The code that these bytes are, with the name of their file.
    FileData(Data),
    /// The code that this text is.
    Code(Text),
}

impl Source {
    /// An equal source, in time linear in its text; Data is shared.
    ///
    /// # Errors
    ///
    /// [`Memory`] where there is no room for the copy.
    pub fn copy(&self, alloc: Global) -> Result<Source, Memory>
        ensures { IfOk result (λ copy. copy ≡ self.now) }
    {
        let copy = match self {
            Source::File(name) => Source::File(name.copy(alloc)?),
            Source::FileData(data) => Source::FileData(data.share()?),
            Source::Code(text) => Source::Code(text.copy(alloc)?),
        };
        Ok(copy)
    }
}
