use love_base::{MemFolder, Text};
use std::alloc::Global;
use std::test::Fail;

mod lines;
mod pieces;
mod refusals;
mod renderings;

// The words of a command line.
fn words(alloc: Global, words: &[&[u8]]) -> Result<Vec<Text>, Fail> {
    let mut all = Vec::new(alloc);
    for word in words {
        all.push(Text::of(alloc, word)?)?;
    }
    Ok(all)
}

// A folder of one file, whose calls of these numbers fail.
fn folder(alloc: Global, name: &[u8], source: &[u8], fails: &[u64]) -> Result<MemFolder, Fail> {
    let name = Text::of(alloc, name)?;
    let source = Vec::from_slice(alloc, source)?;
    let files = vec![in alloc; (name, source)]?;
    Ok(MemFolder::new(files, Vec::from_slice(alloc, fails)?))
}
