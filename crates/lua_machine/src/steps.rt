//! Steps: one instruction after the other.

ghost use Rattle.std.specs.Prelude.{◌≡◌, IfOk};
ghost use Rattle.lua_machine.specs.Ready.{IsReady, IsReadyFor};
ghost use Rattle.lua_code.specs.Held.{program_view};
ghost use Rattle.lua_code.specs.Sound.{IsSoundProgram};
ghost use Rattle.lua_machine.specs.Does.{IsKept, Takes};
ghost use Rattle.lua_machine.specs.Runs.{Steps, Runs};

use crate::engine::Engine;
use crate::status::{Pause, Status, Turn};
use love_base::Memory;
use lua_code::{Instr, Program};

impl<'a> Engine<'a> {
    // The next instruction.
    #[inline]
    fn fetch(&self) -> Instr
        requires ready { IsReady self.now }
        ensures { IsReadyFor result self.now }
    {
        self.proto.instrs()[self.pc]
    }

    // Does an instruction.
    #[inline]
    fn act(&mut self, instr: Instr) -> Result<Status, Memory>
        requires ready { IsReadyFor instr self.old }
        ensures { IfOk result (λ status. Takes instr status self.old self.new) }
    {
        match instr {
            Instr::Move { to, from } => {
                self.shift(to, from);
                Ok(Status::Goes)
            }
            Instr::Const { to, constant } => {
                self.load_constant(to, constant);
                Ok(Status::Goes)
            }
            Instr::GetCell { to, cell } => {
                self.get_cell(to, cell);
                Ok(Status::Goes)
            }
            Instr::SetCell { cell, from } => {
                self.set_cell(cell, from);
                Ok(Status::Goes)
            }
            Instr::SetCellConst { cell, constant } => {
                self.set_cell_const(cell, constant);
                Ok(Status::Goes)
            }
            Instr::NewCell { cell, from } => self.new_cell(cell, from),
            Instr::Close { to, proto } => self.close(to, proto),
            Instr::FirstExtra { to } => {
                self.first_extra(to);
                Ok(Status::Goes)
            }
            Instr::AllExtra => self.all_extra(),
            Instr::Skip { count } => {
                self.skip(count);
                Ok(Status::Goes)
            }
            Instr::SkipIf { from, count } => {
                self.skip_if(from, count);
                Ok(Status::Goes)
            }
            Instr::SkipUnless { from, count } => {
                self.skip_unless(from, count);
                Ok(Status::Goes)
            }
            Instr::Tick => Ok(self.tick()),
            Instr::BackIf { from, count } => Ok(self.back_if(from, count)),
            Instr::BackUnless { from, count } => Ok(self.back_unless(from, count)),
            Instr::ForBegin { at, count } => self.for_begin(at, count),
            Instr::ForNext { at, count } => Ok(self.for_next(at, count)),
            Instr::NewTable { to } => self.new_table(to),
            Instr::SetItem {
                table,
                number,
                from,
            } => self.set_item(table, number, from),
            Instr::SetItemConst {
                table,
                number,
                constant,
            } => self.set_item_const(table, number, constant),
            Instr::SetRest { table, number } => self.set_rest(table, number),
            Instr::SetNew { table, key, from } => self.set_new(table, key, from),
            Instr::SetNewConst {
                table,
                key,
                constant,
            } => self.set_new_const(table, key, constant),
            Instr::SetNewNamed { table, name, from } => self.set_new_named(table, name, from),
            Instr::SetNewNamedConst {
                table,
                name,
                constant,
            } => self.set_new_named_const(table, name, constant),
            Instr::Invoke {
                to,
                at,
                count,
                tailed,
            } => self.invoke(to, at, count, tailed),
            Instr::InvokeAll { at, count, tailed } => self.invoke_all(at, count, tailed),
            Instr::Spread {
                from,
                count,
                tailed,
            } => {
                self.spread(from, count, tailed);
                Ok(Status::Goes)
            }
            Instr::EachNext { at, count } => Ok(self.each_next(at, count)),
            Instr::Leave {
                from,
                count,
                tailed,
            } => self.leave(from, count, tailed),
            Instr::Unary { op, to, from } => self.unary(op, to, from),
            Instr::Binary {
                op,
                to,
                left,
                right,
            } => self.binary(op, to, left, right),
            Instr::BinaryConst {
                op,
                to,
                left,
                constant,
            } => self.binary_const(op, to, left, constant),
            Instr::GetField { to, base, key } => self.get_field(to, base, key),
            Instr::GetNamed { to, base, name } => self.get_named(to, base, name),
            Instr::GetGlobal { to, name } => self.get_global(to, name),
            Instr::SetField { base, key, from } => self.set_field(base, key, from),
            Instr::SetFieldConst {
                base,
                key,
                constant,
            } => self.set_field_const(base, key, constant),
            Instr::SetNamed { base, name, from } => self.set_named(base, name, from),
            Instr::SetNamedConst {
                base,
                name,
                constant,
            } => self.set_named_const(base, name, constant),
            Instr::SetGlobal { name, from } => self.set_global(name, from),
            Instr::SetGlobalConst { name, constant } => self.set_global_const(name, constant),
        }
    }

    // One step.
    #[inline]
    fn step(&mut self) -> Result<Status, Memory>
        requires ready { IsReady self.old }
        ensures { IfOk result (λ status. Steps status self.old self.new) }
    {
        let instr = self.fetch();
        self.act(instr)
    }

    // Goes on from a status to where the machine of the definitions pauses.
    pub(crate) fn run(
        &mut self,
        program: &'a Program,
        state: u32,
        from: Status,
    ) -> Result<Pause, Memory>
        requires sound { IsSoundProgram (program_view program.now state) }
        requires kept { IsKept from self.old }
        ensures { IfOk result (λ pause. Runs (program_view program.now state) from pause self.old
            self.new) }
    {
        let mut turn = self.land(from)?;
        loop {
            turn = match turn {
                Turn::Goes => {
                    let status = self.step()?;
                    self.land(status)?
                }
                Turn::Serves(native) => {
                    let status = self.serve(program, state, native)?;
                    self.land(status)?
                }
                Turn::Pauses(pause) => return Ok(pause),
            };
        }
    }
}
