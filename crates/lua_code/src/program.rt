//! A game's files, with the code of those that are programs.

use crate::Code;
use love_base::{Data, List, Text};

/// The files of a game's folder.
#[derive(Debug, Drop)]
pub struct Program {
    /// No two have one name.
    pub files: List<File>,
}

/// A file of a game's folder.
#[derive(Debug, Drop)]
pub struct File {
    /// Its path within the folder.
    pub name: Text,
    /// Its bytes.
    pub content: Data,
    /// What it is as a program.
    pub code: FileCode,
}

/// What a file is as a program.
#[derive(Debug, Drop)]
pub enum FileCode {
    /// The code of its chunk.
    Ready(Code),
    /// The text of its fault.
    Faulty(Text),
    /// Its name doesn't end in `.lua`.
    NotLua,
}
