//! The code of one function, as it is made.

ghost use Rattle.std.specs.Prelude.{◌≡◌, suc, ◌<◌, ◌↔◌, IsTrue, [], ◌∷◌, ◌++◌, length, set, max, IfOk, OnOk, OnErr};
ghost use Rattle.lua_code.specs.Valid.{cells_at};
ghost use Rattle.lua_code.specs.Within.{slots_of, AreKnown, IsProto};

use crate::constant::Constant;
use crate::instr::{Instr, Site};
use love_base::{List, Memory, Text};
use std::alloc::Global;
use std::marker::Model;

/// The code of one function: its file, its parameters, the cells that it holds of the function
/// around it, and its instructions with their sites and constants.
///
/// An instruction names a function that it makes by its number among those of a [`crate::Code`].
#[derive(Debug, Drop)]
pub struct Proto {
    file: Text,
    params: u32,
    varargs: bool,
    captures: List<u32>,
    size: usize,
    instrs: Vec<Instr>,
    sites: Vec<Site>,
    constants: Vec<Constant>,
}

impl Model for Proto {
    ghost use Rattle.lua_code.specs.View.{ProtoView};
    ghost use Rattle.lua_code.specs.Within.{IsProto};

    ghost Value = { ProtoView };

    ghost view = { λ p. record {
      file = p.file;
      params = p.params;
      varargs = p.varargs;
      captures = p.captures;
      size = p.size;
      instrs = p.instrs.items;
      sites = p.sites.items;
      constants = p.constants.items;
    } };

    ghost invariant = { λ p. IsProto (record {
      file = p.file;
      params = p.params;
      varargs = p.varargs;
      captures = p.captures;
      size = p.size;
      instrs = p.instrs.items;
      sites = p.sites.items;
      constants = p.constants.items;
    }) };
}

// Puts an instruction and its site at the end, or neither.
fn append(
    instrs: &mut Vec<Instr>,
    sites: &mut Vec<Site>,
    instr: Instr,
    site: Site,
) -> Result<(), Memory>
    ensures instrs { OnOk result (instrs.new.items ≡ instrs.old.items ++ instr ∷ []) }
    ensures sites { OnOk result (sites.new.items ≡ sites.old.items ++ site ∷ []) }
    ensures instrs_refused { OnErr result (instrs.new.items ≡ instrs.old.items) }
    ensures sites_refused { OnErr result (sites.new.items ≡ sites.old.items) }
{
    instrs.push(instr)?;
    if sites.push(site).is_err() {
        let _instr = instrs.pop();
        return Err(Memory);
    }
    Ok(())
}

impl Proto {
    /// The code of a function without instructions yet. `captures` are the places of the cells that
    /// it holds among those of the function around it.
    pub fn new(alloc: Global, file: Text, params: u32, varargs: bool, captures: List<u32>) -> Proto
        ensures proto { result ≡ record {
          file = file;
          params = params;
          varargs = varargs;
          captures = captures;
          size = params;
          instrs = [];
          sites = [];
          constants = [];
        } }
        ensures held { IsProto result }
    {
        Proto {
            file,
            params,
            varargs,
            captures,
            size: params as usize,
            instrs: Vec::new(alloc),
            sites: Vec::new(alloc),
            constants: Vec::new(alloc),
        }
    }

    /// Puts an instruction at the end, in amortised constant time.
    ///
    /// # Errors
    ///
    /// [`Memory`] where there is no room for it. The code is then as it was.
    pub fn append(&mut self, instr: Instr, site: Site) -> Result<(), Memory>
        requires known { AreKnown (length self.old.constants) instr }
        ensures ok { OnOk result (self.new ≡ record self.old {
          size = max self.old.size (slots_of instr);
          instrs = self.old.instrs ++ instr ∷ [];
          sites = self.old.sites ++ site ∷ [];
        }) }
        ensures refused { OnErr result (self.new ≡ self.old) }
        ensures held { IsProto self.new }
    {
        let size = self.size.max(slot_count(instr));
        append(&mut self.instrs, &mut self.sites, instr, site)?;
        self.size = size;
        Ok(())
    }

    /// Puts another instruction in the place of one, whose site stays.
    pub fn replace(&mut self, at: usize, instr: Instr)
        requires at { at < length self.old.instrs }
        requires known { AreKnown (length self.old.constants) instr }
        ensures replaced { self.new ≡ record self.old {
          size = max self.old.size (slots_of instr);
          instrs = set self.old.instrs at instr;
        } }
        ensures held { IsProto self.new }
    {
        self.size = self.size.max(slot_count(instr));
        self.instrs[at] = instr;
    }

    /// Puts a constant at the end of them, and gives its number.
    ///
    /// # Errors
    ///
    /// [`Memory`] where there is no room for it, or as many as a number counts. The code is then as
    /// it was.
    pub fn add_constant(&mut self, constant: Constant) -> Result<u32, Memory>
        ensures number { IfOk result (λ n. n ≡ length self.old.constants) }
        ensures ok { OnOk result (self.new ≡ record self.old {
          constants = self.old.constants ++ constant ∷ [];
        }) }
        ensures refused { OnErr result (self.new ≡ self.old) }
        ensures held { IsProto self.new }
    {
        let Ok(number) = u32::try_from(self.constants.len()) else {
            return Err(Memory);
        };
        self.constants.push(constant)?;
        Ok(number)
    }

    /// The name of the file that it comes from.
    pub fn file(&self) -> &Text
        ensures { result.now ≡ self.now.file }
    {
        &self.file
    }

    /// How many parameters the function has.
    #[inline]
    pub fn params(&self) -> u32
        ensures { result ≡ self.now.params }
    {
        self.params
    }

    /// Whether extra arguments are kept.
    #[inline]
    pub fn is_vararg(&self) -> bool
        ensures { result ≡ self.now.varargs }
    {
        self.varargs
    }

    /// How many slots a frame of the function has.
    #[inline]
    pub fn size(&self) -> usize
        ensures { result ≡ self.now.size }
    {
        self.size
    }

    /// How many instructions there are, in constant time.
    pub fn len(&self) -> usize
        ensures len { result ≡ length self.now.instrs }
        ensures held { IsProto self.now }
    {
        self.instrs.len()
    }

    /// How many cells there are before an instruction; 0 past the end.
    #[inline]
    pub fn cells(&self, at: usize) -> usize
        ensures { result ≡ cells_at self.now at }
    {
        match self.sites.get(at) {
            Some(site) => site.cells as usize,
            None => 0,
        }
    }

    /// The places of the cells that the function holds among those of the one around it.
    pub fn captures(&self) -> &List<u32>
        ensures { result.now ≡ self.now.captures }
    {
        &self.captures
    }

    /// The instructions in order.
    #[inline]
    pub fn instrs(&self) -> &[Instr]
        ensures { result.now ≡ self.now.instrs }
    {
        &self.instrs
    }

    /// The sites of the instructions, in their order.
    pub fn sites(&self) -> &[Site]
        ensures { result.now ≡ self.now.sites }
    {
        &self.sites
    }

    /// The constants in order.
    pub fn constants(&self) -> &[Constant]
        ensures { result.now ≡ self.now.constants }
    {
        &self.constants
    }

    /// Whether the constants that an instruction names are there.
    pub fn knows(&self, instr: Instr) -> bool
        ensures { IsTrue result ↔ AreKnown (length self.now.constants) instr }
    {
        let count = self.constants.len();
        match instr {
            Instr::Const { constant, .. }
            | Instr::SetCellConst { constant, .. }
            | Instr::SetItemConst { constant, .. }
            | Instr::SetNewConst { constant, .. }
            | Instr::BinaryConst { constant, .. }
            | Instr::SetFieldConst { constant, .. } => (constant as usize) < count,
            Instr::SetNewNamed { name, .. }
            | Instr::GetNamed { name, .. }
            | Instr::GetGlobal { name, .. }
            | Instr::SetNamed { name, .. }
            | Instr::SetGlobal { name, .. } => (name as usize) < count,
            Instr::SetNewNamedConst { name, constant, .. }
            | Instr::SetNamedConst { name, constant, .. }
            | Instr::SetGlobalConst { name, constant } => {
                (name as usize) < count && (constant as usize) < count
            }
            _ => true,
        }
    }

    /// How many constants there are, in constant time.
    pub fn constant_count(&self) -> usize
        ensures { result ≡ length self.now.constants }
    {
        self.constants.len()
    }
}

// How many slots reach past one of these.
#[inline]
fn past(a: u32, b: u32) -> usize
    ensures { result ≡ max (suc a) (suc b) }
{
    a.max(b) as usize + 1
}

#[inline]
fn past_all(a: u32, b: u32, c: u32) -> usize
    ensures { result ≡ max (suc a) (max (suc b) (suc c)) }
{
    a.max(b.max(c)) as usize + 1
}

// How many slots a frame has at least whose function has this instruction.
fn slot_count(instr: Instr) -> usize
    ensures { result ≡ slots_of instr }
{
    match instr {
        Instr::Tick
        | Instr::Skip { .. }
        | Instr::AllExtra
        | Instr::SetCellConst { .. }
        | Instr::SetGlobalConst { .. } => 0,

        Instr::Const { to, .. }
        | Instr::GetCell { to, .. }
        | Instr::Close { to, .. }
        | Instr::NewTable { to }
        | Instr::FirstExtra { to }
        | Instr::GetGlobal { to, .. } => to as usize + 1,

        Instr::SetCell { from, .. }
        | Instr::NewCell { from, .. }
        | Instr::SetGlobal { from, .. }
        | Instr::SkipIf { from, .. }
        | Instr::SkipUnless { from, .. }
        | Instr::BackIf { from, .. }
        | Instr::BackUnless { from, .. } => from as usize + 1,

        Instr::SetItemConst { table, .. }
        | Instr::SetRest { table, .. }
        | Instr::SetNewNamedConst { table, .. } => table as usize + 1,
        Instr::SetNamedConst { base, .. } => base as usize + 1,

        Instr::Move { to, from } | Instr::Unary { to, from, .. } => past(to, from),
        Instr::BinaryConst { to, left, .. } => past(to, left),
        Instr::GetNamed { to, base, .. } => past(to, base),
        Instr::SetItem { table, from, .. } | Instr::SetNewNamed { table, from, .. } => {
            past(table, from)
        }
        Instr::SetNewConst { table, key, .. } => past(table, key),
        Instr::SetFieldConst { base, key, .. } => past(base, key),
        Instr::SetNamed { base, from, .. } => past(base, from),

        Instr::Binary {
            to,
            left,
            right,
            ..
        } => past_all(to, left, right),
        Instr::GetField { to, base, key } => past_all(to, base, key),
        Instr::SetField { base, key, from } => past_all(base, key, from),
        Instr::SetNew { table, key, from } => past_all(table, key, from),

        Instr::Invoke { to, at, count, .. } => {
            (to as usize + 1).max(at as usize + 1 + count as usize)
        }
        Instr::InvokeAll { at, count, .. } => at as usize + 1 + count as usize,
        Instr::Spread { from, count, .. } | Instr::Leave { from, count, .. } => {
            from as usize + count as usize
        }
        Instr::ForBegin { at, .. } | Instr::ForNext { at, .. } | Instr::EachNext { at, .. } => {
            at as usize + 4
        }
    }
}
