//! A chunk's code.

ghost use Rattle.std.specs.Prelude.{◌≡◌, ◌↔◌, IsSome, IfSome};
ghost use Rattle.lua_code.specs.Valid.{AreValid};

use crate::check::are_valid;
use crate::proto::Proto;
use std::marker::Model;

/// The code of a chunk: its functions, each behind those that it makes, and the chunk's own last.
/// It is in order: a machine that runs it needs no test of a jump, a cell or a function.
///
/// Contracts see it as the list of its functions.
#[derive(Debug, Drop)]
pub struct Code {
    protos: Vec<Proto>,
}

impl Model for Code {
    ghost use Rattle.std.specs.Prelude.{List};
    ghost use Rattle.lua_code.specs.View.{ProtoView};
    ghost use Rattle.lua_code.specs.Valid.{AreValid};

    ghost Value = { List ProtoView };

    ghost view = { λ c. c.protos.items };

    ghost invariant = { λ c. AreValid c.protos.items };
}

impl Code {
    /// The code of these functions, where they are in order: jumps lead inside, each cell is there
    /// when it is used, as many as its site says, and a function makes only functions before it.
    /// `None` exactly where they aren't.
    pub fn check(protos: Vec<Proto>) -> Option<Code>
        ensures valid { IsSome result ↔ AreValid protos.items }
        ensures code { IfSome result (λ code. code ≡ protos.items) }
    {
        if !are_valid(protos.as_slice()) {
            return None;
        }
        Some(Code { protos })
    }

    /// The functions in order.
    pub fn protos(&self) -> &[Proto]
        ensures protos { result.now ≡ self.now }
        ensures valid { AreValid self.now }
    {
        self.protos.as_slice()
    }
}
