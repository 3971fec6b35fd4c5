//! Lists of names.

ghost use Rattle.std.specs.Prelude.{◌≡◌, [], ◌∷◌, ◌++◌, map, reverse, OnOk, IfOk};
ghost use Rattle.lua_meaning.specs.Names.{is_among, without, distinct};

use love_base::{Memory, Text};
use std::alloc::Global;
use std::marker::Model;
use std::slice;

/// Names that parts of a tree use, in the order of the source, which may have one more than once.
/// Contracts see the list of names. After a call that fails nothing is said of them.
///
/// They grow at the front: what is put in stands before the others, in constant time for a name.
#[derive(Drop)]
pub struct Names<'a> {
    alloc: Global,
    backwards: Vec<&'a Text>,
}

impl<'a> Model for Names<'a> {
    ghost use Rattle.std.specs.Prelude.{List, map, reverse};
    ghost use Rattle.lua_tree.specs.Tree.{Bytes};

    ghost Value = { List Bytes };

    ghost view = { λ n. reverse (map (λ name. name.now) n.backwards.items) };
}

/// Whether a name is among some, in time linear in their number.
pub fn is_among(names: &[Text], name: &Text) -> bool
    ensures { result ≡ is_among names.now name.now }
{
    for one in names {
        if one.bytes() == name.bytes() {
            return true;
        }
    }
    false
}

impl<'a> Names<'a> {
    /// None yet. Takes no memory.
    pub fn new(alloc: Global) -> Names<'a>
        ensures { result ≡ [] }
    {
        Names {
            alloc,
            backwards: Vec::new(alloc),
        }
    }

    // None yet, for a part whose names are others'.
    pub(crate) fn apart(&self) -> Names<'a>
        ensures { result ≡ [] }
    {
        Names::new(self.alloc)
    }

    /// The names from the last one on, in constant time.
    pub fn backwards(&self) -> &[&'a Text]
        ensures { self.now ≡ reverse (map (λ name. name.now) result.now) }
    {
        self.backwards.as_slice()
    }

    /// Whether a name is among them, in time linear in their number.
    pub fn has(&self, name: &Text) -> bool
        ensures { result ≡ is_among self.now name.now }
    {
        let mut at = self.backwards.len();
        'names: while at > 0 {
            at -= 1;
            if self.backwards[at].bytes() == name.bytes() {
                return true;
            }
        }
        false
    }

    // Puts one in front.
    pub(crate) fn put(&mut self, name: &'a Text) -> Result<(), Memory>
        ensures { OnOk result (self.new ≡ name.now ∷ self.old) }
    {
        self.backwards.push(name)?;
        Ok(())
    }

    // Puts others in front.
    pub(crate) fn put_all(&mut self, others: Names<'a>) -> Result<(), Memory>
        ensures { OnOk result (self.new ≡ others.entry ++ self.old) }
    {
        for name in &others.backwards {
            self.put(*name)?;
        }
        Ok(())
    }

    /// Leaves out those that are among some, in time linear in the number of both multiplied.
    ///
    /// # Errors
    ///
    /// [`Memory`] where there is no room for those that are left.
    pub fn leave_out(&mut self, declared: &[Text]) -> Result<(), Memory>
        ensures { OnOk result (self.new ≡ without declared.now self.old) }
    {
        let mut left = Vec::new(self.alloc);
        for name in &self.backwards {
            if !is_among(declared, *name) {
                left.push(*name)?;
            }
        }
        self.backwards = left;
        Ok(())
    }
}

// Each name once, at its first place, in time linear in the names and in how many differ,
// multiplied.
pub(crate) fn distinct<'a>(names: Names<'a>) -> Result<Names<'a>, Memory>
    ensures { IfOk result (λ once. once ≡ distinct names.entry) }
{
    let mut once = names.apart();
    for name in &names.backwards {
        once.leave_out(slice::from_ref(*name))?;
        once.put(*name)?;
    }
    Ok(once)
}
