//! Numeric loops.

ghost use Rattle.std.specs.Prelude.{◌≡◌, ◌+◌, ◌-◌, ◌<◌, ◌≤◌, ◌^◌, Some, Ok, Err, IfOk, IfErr};
ghost use Rattle.std.specs.Bool.{OnTrue, OnFalse};
ghost use Rattle.lua_meaning.specs.Running.{is_counting};
ghost use Rattle.lua_heap.specs.declared.value.Value.TheVariants.{Num as Number};
ghost use Rattle.lua_heap.specs.Value.{value_view};
ghost use Rattle.lua_code.specs.declared.instr.Instr.TheVariants.{ForBegin, ForNext};
ghost use Rattle.lua_machine.specs.View.{value_at};
ghost use Rattle.lua_machine.specs.Ready.{IsReadyFor};
ghost use Rattle.lua_machine.specs.Does.{Takes, HasSlot};
ghost use Rattle.lua_machine.specs.Turns.{TurnedOr, HasTurned, loop_numbers, numbers_at, with_numbers};

use crate::engine::Engine;
use crate::status::Status;
use love_base::Memory;
use lua_heap::Value;
use lua_lib::call::arguments::as_number;
use lua_value::Num;

// Whether a loop has a turn for a number.
#[inline]
fn is_counting(number: Num, limit: Num, step: Num) -> bool
    ensures { result ≡ is_counting number limit step }
{
    if step.get() > 0 {
        number.get() <= limit.get()
    } else {
        limit.get() <= number.get()
    }
}

impl<'a> Engine<'a> {
    // The numbers that stand in a loop's first three slots, where they are numbers.
    #[inline]
    fn three_numbers(&self, at: u32) -> Option<(Num, Num, Num)>
        requires slots { HasSlot self.now (at + 3) }
        ensures { result ≡ numbers_at self.now at }
    {
        let first = self.base + at as usize;
        let Value::Num(number) = self.values[first] else {
            return None;
        };
        let Value::Num(limit) = self.values[first + 1] else {
            return None;
        };
        let Value::Num(step) = self.values[first + 2] else {
            return None;
        };
        Some((number, limit, step))
    }

    // A turn for a number begins at one place, or the loop ends at another one. False where there is
    // no tick for it; the machine is then as it was.
    #[inline]
    fn turn(&mut self, at: u32, numbers: (Num, Num, Num), body: usize, exit: usize) -> bool
        requires slots { HasSlot self.old (at + 3) }
        requires limit { value_at self.old.values (self.old.base + at + 1) ≡ Number numbers.1 }
        requires step { value_at self.old.values (self.old.base + at + 2) ≡ Number numbers.2 }
        ensures turned { TurnedOr result at body exit numbers.0 numbers.1 numbers.2 self.old self.new }
        ensures moved { OnTrue result (HasTurned body exit self.old self.new) }
        ensures same { OnFalse result (self.new ≡ self.old) }
    {
        let first = self.base + at as usize;
        let (number, limit, step) = numbers;
        if !is_counting(number, limit, step) {
            self.values[first] = Value::Num(number);
            self.pc = exit;
            return true;
        }
        if self.ticks == 0 {
            return false;
        }
        self.ticks -= 1;
        self.values[first] = Value::Num(number);
        self.values[first + 3] = Value::Num(number);
        self.pc = body;
        true
    }

    // The numbers of a loop are tested, and its first turn begins or is jumped over.
    #[inline]
    pub(crate) fn for_begin(&mut self, at: u32, count: u32) -> Result<Status, Memory>
        requires ready { IsReadyFor (ForBegin at count) self.old }
        ensures { IfOk result (λ status. Takes (ForBegin at count) status self.old self.new) }
    {
        match self.three_numbers(at) {
            Some(numbers) => Ok(self.begin_turn(at, count, numbers)),
            None => self.begin_slowly(at, count),
        }
    }

    // The same, where its slots hold numbers.
    #[inline]
    fn begin_turn(&mut self, at: u32, count: u32, numbers: (Num, Num, Num)) -> Status
        requires ready { IsReadyFor (ForBegin at count) self.old }
        requires numbers { numbers_at self.old at ≡ Some numbers }
        ensures { Takes (ForBegin at count) result self.old self.new }
    {
        let body = self.pc + 1;
        let exit = body + count as usize;
        match self.turn(at, numbers, body, exit) {
            true => Status::Goes,
            false => Status::NoTick,
        }
    }

    // What a loop's first three slots hold as numbers, where strings are read; or what is said of the
    // first one that isn't one.
    fn read_numbers(&self, at: u32) -> Result<(Num, Num, Num), &'static [u8]>
        requires slots { HasSlot self.now (at + 3) }
        ensures read { IfOk result (λ numbers. loop_numbers self.now at ≡ Ok numbers) }
        ensures refused { IfErr result (λ text. loop_numbers self.now at ≡ Err text.now) }
    {
        let first = self.base + at as usize;
        let Some(number) = as_number(&self.heap, &self.values[first]) else {
            return Err(b"'for' initial value must be a number");
        };
        let Some(limit) = as_number(&self.heap, &self.values[first + 1]) else {
            return Err(b"'for' limit must be a number");
        };
        let Some(step) = as_number(&self.heap, &self.values[first + 2]) else {
            return Err(b"'for' step must be a number");
        };
        Ok((number, limit, step))
    }

    // These slots get numbers.
    fn put_numbers(&mut self, at: u32, number: Num, limit: Num, step: Num)
        requires slots { HasSlot self.old (at + 3) }
        ensures { self.new ≡ with_numbers self.old at number limit step }
    {
        let first = self.base + at as usize;
        self.values[first] = Value::Num(number);
        self.values[first + 1] = Value::Num(limit);
        self.values[first + 2] = Value::Num(step);
    }

    // A loop begins whose slots don't all hold numbers.
    #[inline(never)]
    fn begin_slowly(&mut self, at: u32, count: u32) -> Result<Status, Memory>
        requires ready { IsReadyFor (ForBegin at count) self.old }
        ensures { IfOk result (λ status. Takes (ForBegin at count) status self.old self.new) }
    {
        match self.read_numbers(at) {
            Ok(numbers) => {
                self.put_numbers(at, numbers.0, numbers.1, numbers.2);
                Ok(self.begin_turn(at, count, numbers))
            }
            Err(text) => {
                let error = self.error(text)?;
                Ok(Status::Raises(error))
            }
        }
    }

    // The next turn of a loop begins, or none.
    #[inline]
    pub(crate) fn for_next(&mut self, at: u32, count: u32) -> Status
        requires ready { IsReadyFor (ForNext at count) self.old }
        ensures { Takes (ForNext at count) result self.old self.new }
    {
        match self.three_numbers(at) {
            Some(numbers) => self.next_number(at, count, numbers),
            None => {
                self.pc += 1;
                Status::Goes
            }
        }
    }

    // The same, where its slots hold numbers.
    #[inline]
    fn next_number(&mut self, at: u32, count: u32, numbers: (Num, Num, Num)) -> Status
        requires ready { IsReadyFor (ForNext at count) self.old }
        requires numbers { numbers_at self.old at ≡ Some numbers }
        ensures { Takes (ForNext at count) result self.old self.new }
    {
        match numbers.0.add(numbers.2) {
            Ok(next) => {
                let body = self.pc - count as usize;
                let exit = self.pc + 1;
                match self.turn(at, (next, numbers.1, numbers.2), body, exit) {
                    true => Status::Goes,
                    false => Status::NoTick,
                }
            }
            Err(_) => {
                self.pc += 1;
                Status::Goes
            }
        }
    }
}
