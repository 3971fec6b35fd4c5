//! The code of one function while it is made, from its end on, so that each jump's length is known
//! when it is made.

ghost use Rattle.std.specs.Prelude.{◌≡◌, [], ◌∷◌, ◌++◌, ◌<◌, length, set, IfOk, OnOk, OnErr};
ghost use Rattle.lua_code.specs.Within.{AreKnown};
ghost use Rattle.lua_code.specs.declared.instr.Site as sites;
ghost use Rattle.lua_assembler.specs.Drafts.{empty_draft, SameCode, IsFinished};

use love_base::{List, Memory, Text};
use lua_code::{Constant, Instr, Proto, Site};
use std::alloc::Global;
use std::marker::Model;

// An instruction and its site.
#[derive(Clone, Copy)]
struct Step {
    instr: Instr,
    site: Site,
}

/// A function that is being made, as [`Writer::open`](crate::Writer::open) gives it out.
///
/// It has what the function begins with and its constants, as a prototype without instructions, and
/// its instructions, the last one first.
#[derive(Drop)]
pub struct Draft {
    proto: Proto,
    steps: Vec<Step>,
}

impl Model for Draft {
    ghost use Rattle.lua_assembler.specs.Drafts.{Drafted, IsDrafted};

    ghost Value = { Drafted };

    ghost view = { λ d. record { proto = d.proto; steps = d.steps.items } };

    ghost invariant = { λ d. IsDrafted (record { proto = d.proto; steps = d.steps.items }) };
}

impl Draft {
    // A function without instructions yet. `captures` are the places of the cells that it holds
    // among those of the function around it.
    pub(crate) fn new(
        alloc: Global,
        file: Text,
        params: u32,
        varargs: bool,
        captures: List<u32>,
    ) -> Draft
        ensures { result ≡ empty_draft (record {
          file = file;
          params = params;
          varargs = varargs;
          captures = captures;
        }) }
    {
        Draft {
            proto: Proto::new(alloc, file, params, varargs, captures),
            steps: Vec::new(alloc),
        }
    }

    // How many instructions there are.
    pub(crate) fn len(&self) -> usize
        ensures { result ≡ length self.now.steps }
    {
        self.steps.len()
    }

    // Puts an instruction in front of those that are there.
    pub(crate) fn put(&mut self, instr: Instr, site: Site) -> Result<(), Memory>
        requires { AreKnown (length self.old.proto.constants) instr }
        ensures ok { OnOk result (self.new ≡ record self.old {
          steps = self.old.steps ++ record { instr = instr; site = site } ∷ [];
        }) }
        ensures refused { OnErr result (self.new ≡ self.old) }
    {
        self.steps.push(Step { instr, site })?;
        Ok(())
    }

    // Puts another instruction in the place of one, whose site stays. `at` counts from the last
    // instruction on.
    pub(crate) fn replace(&mut self, at: usize, instr: Instr)
        requires at { at < length self.old.steps }
        requires known { AreKnown (length self.old.proto.constants) instr }
        ensures { (s : sites.Site) × (self.new ≡ record self.old {
          steps = set self.old.steps at (record { instr = instr; site = s });
        }) }
    {
        let site = self.steps[at].site;
        self.steps[at] = Step { instr, site };
    }

    // One more constant, and its number.
    pub(crate) fn add_constant(&mut self, constant: Constant) -> Result<u32, Memory>
        ensures number { IfOk result (λ n. n ≡ length self.old.proto.constants) }
        ensures ok { OnOk result (self.new ≡ record self.old {
          proto = record self.old.proto {
            constants = self.old.proto.constants ++ constant ∷ [];
          };
        }) }
        ensures refused { OnErr result (self.new ≡ self.old) }
        ensures same_code { OnOk result (SameCode self.old self.new) }
    {
        self.proto.add_constant(constant)
    }

    // The function's prototype, whose instructions are in order.
    pub(crate) fn finish(self) -> Result<Proto, Memory>
        ensures { IfOk result (λ p. IsFinished self p) }
    {
        let Draft { mut proto, steps } = self;
        let mut at = steps.len();
        'steps: while at > 0 {
            at -= 1;
            let step = steps[at];
            proto.append(step.instr, step.site)?;
        }
        Ok(proto)
    }
}
