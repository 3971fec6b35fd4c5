//! The functions of a chunk while they are made: those that are done, and the running one.

ghost use Rattle.std.specs.Prelude.{◌≡◌, [], ◌∷◌, ◌+◌, ◌-◌, ◌<◌, ◌≤◌, true, length, IfOk, OnOk};
ghost use Rattle.lua_assembler.specs.Drafts.{MakesAmong};
ghost use Rattle.lua_assembler.specs.Writing.{code_of, head_of, constants_of, made_of, inner_of, Puts, Knows, Opens, Closes, Replaces};
ghost use Rattle.lua_code.specs.Within.{AreKnown};
ghost use Rattle.lua_code.specs.View.{MakesBefore, instr_view, site_view, code_at};

use crate::draft::Draft;
use love_base::{List, Memory, Text};
use lua_code::{Constant, Instr, Proto, Site};
use std::alloc::Global;
use std::marker::Model;
use std::mem;

/// The functions that are made, each behind those that it makes, and the running one.
///
/// Those around it stand aside until it is made: [`Writer::open`] gives the next one of them, and
/// [`Writer::close`] takes it again.
#[derive(Drop)]
pub struct Writer {
    alloc: Global,
    protos: Vec<Proto>,
    body: Draft,
}

impl Model for Writer {
    ghost use Rattle.lua_assembler.specs.Writing.{Written, IsWritten};

    ghost Value = { Written };

    ghost view = { λ w. record { protos = w.protos.items; body = w.body } };

    ghost invariant = { λ w. IsWritten (record { protos = w.protos.items; body = w.body }) };
}

impl Writer {
    /// The main function of a file, without instructions yet.
    pub fn new(alloc: Global, file: Text) -> Writer
        ensures code { code_of result ≡ [] }
        ensures head { head_of result ≡ record {
          file = file;
          params = 0;
          varargs = true;
          captures = [];
        } }
    {
        Writer {
            alloc,
            protos: Vec::new(alloc),
            body: Draft::new(alloc, file, 0, true, List::new(alloc)),
        }
    }

    /// Where its memory comes from.
    pub fn alloc(&self) -> Global {
        self.alloc
    }

    /// How many instructions of the running function are there, in constant time.
    #[tactic(auto, using(crate::proofs::Writing::code_length))]
    pub fn len(&self) -> usize
        ensures { result ≡ length (code_of self.now) }
    {
        self.body.len()
    }

    // Puts an instruction in front of those that are there.
    #[tactic(auto, using(crate::proofs::Writing::put_held, crate::proofs::Writing::same_held))]
    pub(crate) fn put(&mut self, instr: Instr, site: Site) -> Result<(), Memory>
        requires known { AreKnown (length (constants_of self.old)) instr }
        requires made { MakesBefore (length self.old.protos) instr }
        ensures { OnOk result (Puts
            (instr_view (constants_of self.old) (made_of self.old) (site_view site) instr ∷ [])
            self.old self.new) }
    {
        self.body.put(instr, site)?;
        Ok(())
    }

    // Puts another instruction in the place of the one that has so many behind it.
    pub(crate) fn replace(&mut self, behind: usize, instr: Instr)
        requires behind { behind < length (code_of self.old) }
        requires known { AreKnown (length (constants_of self.old)) instr }
        requires made { MakesBefore (length self.old.protos) instr }
        ensures { Replaces behind instr self.old self.new }
    {
        self.body.replace(behind, instr)
    }

    // One more constant, and its number.
    #[tactic(auto, using(crate::proofs::Writing::constant_held, crate::proofs::Writing::same_held))]
    pub(crate) fn constant(&mut self, constant: Constant) -> Result<u32, Memory>
        ensures number { IfOk result (λ n. n ≡ length (constants_of self.old)) }
        ensures ok { OnOk result (Knows constant self.old self.new) }
    {
        let number = self.body.add_constant(constant)?;
        Ok(number)
    }

    /// How many instructions are there beyond `before` of them, in constant time.
    ///
    /// # Errors
    ///
    /// [`Memory`] where those are more than a jump counts.
    #[tactic(auto, using(crate::proofs::Writing::code_length))]
    pub fn since(&self, before: usize) -> Result<u32, Memory>
        ensures { IfOk result (λ n. n ≡ length (code_of self.now) - before) }
    {
        match u32::try_from(self.len().saturating_sub(before)) {
            Ok(count) => Ok(count),
            Err(_) => Err(Memory),
        }
    }

    /// Begins a function inside the running one, which is given out and stands aside. `captures` are
    /// the places of the cells that it holds among those of the function around it.
    #[tactic(auto, using(crate::proofs::Writing::opened_held))]
    pub fn open(&mut self, file: Text, params: u32, varargs: bool, captures: List<u32>) -> Draft
        ensures { Opens (record {
          file = file;
          params = params;
          varargs = varargs;
          captures = captures;
        }) result self.old self.new }
    {
        let inner = Draft::new(self.alloc, file, params, varargs, captures);
        mem::replace(&mut self.body, inner)
    }

    /// Ends the running function, and gives its number; the one around it goes on. Takes time in
    /// proportion to its instructions.
    ///
    /// # Errors
    ///
    /// [`Memory`] where there is no room for the function, or no number.
    #[tactic(auto, using(crate::proofs::Writing::closed_held))]
    pub fn close(&mut self, around: Draft) -> Result<u32, Memory>
        requires { MakesAmong (length self.old.protos) around }
        ensures number { IfOk result (λ n. n ≡ length self.old.protos) }
        ensures ok { OnOk result (Closes around self.old self.new) }
    {
        let Ok(number) = u32::try_from(self.protos.len()) else {
            return Err(Memory);
        };
        let done = mem::replace(&mut self.body, around);
        self.protos.push(done.finish()?)?;
        Ok(number)
    }

    /// All functions, the running one last. Takes time in proportion to its instructions.
    ///
    /// # Errors
    ///
    /// [`Memory`] where there is no room for it.
    pub fn finish(self) -> Result<Vec<Proto>, Memory>
        ensures count { IfOk result (λ ps. length ps.items ≡ length self.protos + 1) }
        ensures main { IfOk result (λ ps. code_at ps.items (length self.protos)
            ≡ (inner_of (head_of self) (code_of self)).code) }
    {
        let Writer {
            alloc: _,
            mut protos,
            body,
        } = self;
        protos.push(body.finish()?)?;
        Ok(protos)
    }
}
