//! Operators (Lua 5.1 manual §2.5, §2.8).

ghost use Rattle.std.specs.Prelude.{◌+◌, ◌<◌, ◌^◌, IfOk};
ghost use Rattle.lua_heap.specs.Heap.{IsMade};
ghost use Rattle.lua_code.specs.declared.instr.Instr.TheVariants.{Unary, Binary, BinaryConst};
ghost use Rattle.lua_operators.specs.Doing.{IsMadeDoing};
ghost use Rattle.lua_operators.specs.Faults.{fault_text};
ghost use Rattle.lua_machine.specs.Ready.{IsReady, IsReadyFor};
ghost use Rattle.lua_machine.specs.Does.{Takes, HasSlot};
ghost use Rattle.lua_machine.specs.Errors.{Raised};
ghost use Rattle.lua_machine.specs.Settled.{GoesOn, Settles, Operates};

use crate::engine::Engine;
use crate::handling::wanted;
use crate::numbers::of_numbers;
use crate::status::Status;
use love_base::Memory;
use lua_heap::Value;
use lua_operators::{Doing, Fault, binary, unary};
use lua_tree::{BinOp, UnOp};

impl<'a> Engine<'a> {
    // The value of an operator's error at the line of the next instruction.
    #[inline(never)]
    pub(crate) fn fault(&mut self, fault: Fault) -> Result<Value, Memory>
        requires ready { IsReady self.old }
        ensures { IfOk result (λ value. Raised (fault_text fault) value self.old self.new) }
    {
        let mut text = Vec::new(self.alloc);
        fault.put_text(&mut text)?;
        self.error(text.as_slice())
    }

    // What an operator came to: a slot gets its value, a handler is called, or its error is raised.
    pub(crate) fn settle(&mut self, to: u32, doing: Doing) -> Result<Status, Memory>
        requires ready { IsReady self.old }
        requires leads { GoesOn self.old }
        requires pc { self.old.pc + 1 < 2 ^ 32 }
        requires slot { HasSlot self.old to }
        requires made { IsMadeDoing self.old.heap doing }
        ensures { IfOk result (λ status. Settles to doing status self.old self.new) }
    {
        match doing {
            Doing::Gives(value) => {
                self.put(to, value);
                Ok(Status::Goes)
            }
            Doing::Asks {
                handler,
                first,
                second,
                becomes,
            } => self.handle(wanted(becomes, to), handler, &[first, second]),
            Doing::Fails(fault) => {
                let error = self.fault(fault)?;
                Ok(Status::Raises(error))
            }
        }
    }

    pub(crate) fn unary(&mut self, op: UnOp, to: u32, from: u32) -> Result<Status, Memory>
        requires ready { IsReadyFor (Unary op to from) self.old }
        ensures { IfOk result (λ status. Takes (Unary op to from) status self.old self.new) }
    {
        let value = self.at(from);
        let doing = unary(&self.heap, &self.events, op, &value)?;
        self.settle(to, doing)
    }

    // A binary operator on two values.
    #[inline]
    fn operate(&mut self, op: BinOp, to: u32, left: Value, right: Value) -> Result<Status, Memory>
        requires ready { IsReady self.old }
        requires leads { GoesOn self.old }
        requires pc { self.old.pc + 1 < 2 ^ 32 }
        requires slot { HasSlot self.old to }
        requires left { IsMade self.old.heap left }
        requires right { IsMade self.old.heap right }
        ensures { IfOk result (λ status.
            Operates op to left right status self.old self.new) }
    {
        let Value::Num(x) = left else {
            return self.operate_slowly(op, to, left, right);
        };
        let Value::Num(y) = right else {
            return self.operate_slowly(op, to, left, right);
        };
        match of_numbers(op, x, y) {
            Some(value) => {
                self.put(to, value);
                Ok(Status::Goes)
            }
            None => self.operate_slowly(op, to, left, right),
        }
    }

    // The same where they aren't two numbers, or there is an error.
    #[inline(never)]
    fn operate_slowly(
        &mut self,
        op: BinOp,
        to: u32,
        left: Value,
        right: Value,
    ) -> Result<Status, Memory>
        requires ready { IsReady self.old }
        requires leads { GoesOn self.old }
        requires pc { self.old.pc + 1 < 2 ^ 32 }
        requires slot { HasSlot self.old to }
        requires left { IsMade self.old.heap left }
        requires right { IsMade self.old.heap right }
        ensures { IfOk result (λ status.
            Operates op to left right status self.old self.new) }
    {
        let doing = binary(
            &mut self.heap,
            &self.events,
            &mut self.buffer,
            op,
            &left,
            &right,
        )?;
        self.settle(to, doing)
    }

    #[inline]
    pub(crate) fn binary(
        &mut self,
        op: BinOp,
        to: u32,
        left: u32,
        right: u32,
    ) -> Result<Status, Memory>
        requires ready { IsReadyFor (Binary op to left right) self.old }
        ensures { IfOk result (λ status.
            Takes (Binary op to left right) status self.old self.new) }
    {
        let left = self.at(left);
        let right = self.at(right);
        self.operate(op, to, left, right)
    }

    #[inline]
    pub(crate) fn binary_const(
        &mut self,
        op: BinOp,
        to: u32,
        left: u32,
        n: u32,
    ) -> Result<Status, Memory>
        requires ready { IsReadyFor (BinaryConst op to left n) self.old }
        ensures { IfOk result (λ status.
            Takes (BinaryConst op to left n) status self.old self.new) }
    {
        let left = self.at(left);
        let right = self.constant(n);
        self.operate(op, to, left, right)
    }
}
