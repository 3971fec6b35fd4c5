//! The locals in scope, and how many of them a function uses (Lua 5.1 manual §2.6).

ghost use Rattle.std.specs.Prelude.{◌≡◌, [], ◌++◌, ◌↔◌, ◌<◌, length, take, IfOk, IsTrue, OnOk};
ghost use Rattle.lua_tree.specs.View.{func_view};
ghost use Rattle.lua_meaning.specs.Names.{is_among, func_names};
ghost use Rattle.lua_upvalues.specs.Upvalues.{most_upvalues, upvalues};

use crate::expressions::func_names;
use crate::name_list::Names;
use love_base::{Memory, Text};
use lua_tree::Func;
use std::alloc::Global;
use std::marker::Model;

// The most locals of the functions around it that a function may use.
const MOST_UPVALUES: usize = 255;

// The names of the locals in scope, of all functions around. Contracts see the list of names.
#[derive(Drop)]
pub(crate) struct Locals<'a> {
    alloc: Global,
    names: Vec<&'a Text>,
}

impl<'a> Model for Locals<'a> {
    ghost use Rattle.std.specs.Prelude.{List, map};
    ghost use Rattle.lua_tree.specs.Tree.{Bytes};

    ghost Value = { List Bytes };

    ghost view = { λ l. map (λ name. name.now) l.names.items };
}

impl<'a> Locals<'a> {
    // None yet.
    pub(crate) fn new(alloc: Global) -> Locals<'a>
        ensures { result ≡ [] }
    {
        Locals {
            alloc,
            names: Vec::new(alloc),
        }
    }

    // Some come into scope.
    pub(crate) fn declare(&mut self, names: &'a [Text]) -> Result<(), Memory>
        ensures { OnOk result (self.new ≡ self.old ++ names.now) }
    {
        for name in names {
            self.names.push(name)?;
        }
        Ok(())
    }

    pub(crate) fn len(&self) -> usize
        ensures { result ≡ length self.now }
    {
        self.names.len()
    }

    // All but the first ones go out of scope.
    pub(crate) fn cut(&mut self, len: usize)
        ensures { self.new ≡ take len self.old }
    {
        self.names.truncate(len);
    }

    // Whether a name is that of one of them.
    fn has(&self, name: &Text) -> bool
        ensures { result ≡ is_among self.now name.now }
    {
        for one in &self.names {
            if one.bytes() == name.bytes() {
                return true;
            }
        }
        false
    }

    // How many of some names are those of locals.
    fn count(&self, names: &Names) -> usize
        ensures { result ≡ length (upvalues self.now names.now) }
    {
        let mut count = 0;
        for name in names.backwards() {
            if self.has(*name) {
                count += 1;
            }
        }
        count
    }

    // Whether a function uses too many of them.
    pub(crate) fn are_too_many(&self, func: &'a Func) -> Result<bool, Memory>
        ensures { IfOk result (λ over. IsTrue over
            ↔ (most_upvalues < length (upvalues self.now (func_names (func_view func.now))))) }
    {
        let mut names = Names::new(self.alloc);
        func_names(&mut names, func)?;
        Ok(self.count(&names) > MOST_UPVALUES)
    }
}
