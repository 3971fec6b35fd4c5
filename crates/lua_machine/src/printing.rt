//! `print` (Lua 5.1 manual §5.1).

ghost use Rattle.std.specs.Prelude.{◌≡◌, suc, ◌+◌, ◌-◌, ◌<◌, ◌++◌, take, map, length, codes, Some, List, IfOk, OnOk};
ghost use Rattle.lua_tree.specs.Tree.{Bytes};
ghost use Rattle.lua_meaning.specs.Value.{nil, first};
ghost use Rattle.lua_meaning.specs.Text.{as_text};
ghost use Rattle.lua_meaning.specs.Control.{line_of};
ghost use Rattle.lua_meaning.specs.Store.{handler};
ghost use Rattle.lua_heap.specs.Value.{value_view};
ghost use Rattle.lua_heap.specs.Heap.{store_of, IsMade};
ghost use Rattle.lua_machine.specs.View.{text_of, value_at};
ghost use Rattle.lua_machine.specs.Made.{AreMade};
ghost use Rattle.lua_machine.specs.Ready.{IsServing};
ghost use Rattle.lua_machine.specs.Basics.{ServedAlone};
ghost use Rattle.lua_machine.specs.Back.{args_of};
ghost use Rattle.lua_machine.specs.Fulfilling.{Fulfils};
ghost use Rattle.lua_machine.specs.Printing.{texts_in, tabbed, Passes, PassesTo, PrintsLine, PrintsFrom, KeepsText};

use crate::engine::Engine;
use crate::frame::Duty;
use crate::status::Status;
use crate::texts::{is_file_data, put_text};
use love_base::Memory;
use lua_heap::{Heap, Native, Value};
use lua_operators::Event;
use std::alloc::Global;

// A value that is kept and the handler of its text.
#[derive(Clone, Copy, Debug)]
pub(crate) struct Asked {
    pub(crate) number: usize,
    pub(crate) handler: Value,
}

// Puts a tab and the text of each value behind others, and a newline.
fn put_tabbed(line: &mut Vec<u8>, heap: &Heap, values: &[Value]) -> Result<(), Memory>
    requires made { AreMade heap.now values.now }
    ensures { OnOk result (line.new.items
        ≡ line.old.items ++ tabbed (texts_in heap.now.texts values.now)) }
{
    for value in values {
        line.push(b'\t')?;
        put_text(line, heap, value)?;
    }
    line.push(b'\n')?;
    Ok(())
}

// The texts of values, with tabs between and a newline at the end.
fn line_of(alloc: Global, heap: &Heap, values: &[Value]) -> Result<Vec<u8>, Memory>
    requires made { AreMade heap.now values.now }
    ensures { IfOk result (λ line. line.items ≡ line_of (texts_in heap.now.texts values.now)) }
{
    let Some((first, rest)) = values.split_first() else {
        return Ok(Vec::from_slice(alloc, b"\n")?);
    };
    let mut line = Vec::new(alloc);
    put_text(&mut line, heap, first)?;
    put_tabbed(&mut line, heap, rest)?;
    Ok(line)
}

impl<'a> Engine<'a> {
    // The arguments are what is kept.
    fn keep_arguments(&mut self) -> Result<(), Memory>
        ensures { OnOk result (self.new ≡ record self.old {
          extras = take self.old.extra_base self.old.extras ++ self.old.args;
        }) }
    {
        self.extras.truncate(self.extra_base);
        self.extras.extend_from_slice(self.args.as_slice())?;
        Ok(())
    }

    // A value that is kept stands for its text. Only of a file's Data that has to be put there.
    fn settle_text(&mut self, number: usize) -> Result<(), Memory>
        requires ready { IsServing self.old }
        requires number { self.old.extra_base + number < length self.old.extras }
        requires plain { handler (store_of self.old.heap) (value_view self.old.heap.texts
            (value_at self.old.extras (self.old.extra_base + number))) (codes "__tostring") ≡ nil }
        ensures { OnOk result (Passes number (suc number) self.old self.new) }
    {
        let at = self.extra_base + number;
        if is_file_data(&self.heap, &self.extras[at]) {
            let name = self.heap.intern(b"FileData")?;
            self.extras[at] = Value::Str(name);
        }
        Ok(())
    }

    // The first value from one on that has a handler. Those before it stand for their texts.
    fn pass_texts(&mut self, from: usize) -> Result<Option<Asked>, Memory>
        requires ready { IsServing self.old }
        ensures { IfOk result (λ asked. PassesTo from asked self.old self.new) }
    {
        for number in from..self.extras.len() - self.extra_base {
            let at = self.extra_base + number;
            let handler = self
                .events
                .handler(&self.heap, &self.extras[at], Event::Text);
            if !matches!(handler, Value::Nil) {
                return Ok(Some(Asked { number, handler }));
            }
            self.settle_text(number)?;
        }
        Ok(None)
    }

    // The line is printed.
    fn print_line(&mut self) -> Result<Status, Memory>
        requires ready { IsServing self.old }
        ensures { IfOk result (λ status. PrintsLine status self.old self.new) }
    {
        let line = line_of(self.alloc, &self.heap, &self.extras[self.extra_base..])?;
        self.args.clear();
        Ok(Status::Prints(line))
    }

    // `print` goes on with the texts of the values from one on.
    fn print_from(&mut self, from: usize) -> Result<Status, Memory>
        requires ready { IsServing self.old }
        ensures { IfOk result (λ status. PrintsFrom from status self.old self.new) }
    {
        match self.pass_texts(from)? {
            Some(asked) => {
                let value = self.extras[self.extra_base + asked.number];
                self.call_text(Duty::Prints(asked.number), value, asked.handler)
            }
            None => self.print_line(),
        }
    }

    // `print(...)`
    pub(crate) fn print(&mut self) -> Result<Status, Memory>
        requires ready { IsServing self.old }
        ensures { IfOk result (λ status. ServedAlone Native.Print status self.old self.new) }
    {
        let _extras = &self.extras;
        self.keep_arguments()?;
        self.print_from(0)
    }

    // A text is kept in the place of a value, or behind the last one. How many texts there are then.
    fn keep_text(&mut self, count: usize, text: Value) -> Result<usize, Memory>
        requires made { IsMade self.old.heap text }
        ensures { IfOk result (λ next. KeepsText count text next self.old self.new) }
    {
        let kept = self.extras.len() - self.extra_base;
        if count < kept {
            let at = self.extra_base + count;
            self.extras[at] = text;
            return Ok(count + 1);
        }
        self.extras.push(text)?;
        Ok(kept + 1)
    }

    // `print` goes on with a text that was given for the value behind so many.
    fn print_text(&mut self, count: usize, text: Value) -> Result<Status, Memory>
        requires ready { IsServing self.old }
        requires made { IsMade self.old.heap text }
        requires first { value_view self.old.heap.texts text ≡ first (args_of self.old) }
        requires text { as_text (value_view self.old.heap.texts text)
            ≡ Some (text_of (value_view self.old.heap.texts text)) }
        ensures { IfOk result (λ status. Fulfils (Duty.Prints count) status self.old self.new) }
    {
        let _extras = &self.extras;
        let from = self.keep_text(count, text)?;
        self.print_from(from)
    }

    // `print` goes on with the text of the value behind so many.
    pub(crate) fn take_text(&mut self, count: usize) -> Result<Status, Memory>
        requires ready { IsServing self.old }
        ensures { IfOk result (λ status. Fulfils (Duty.Prints count) status self.old self.new) }
    {
        let value = self.first_arg();
        match value {
            Value::Str(_) => self.print_text(count, value),
            Value::Num(_) => self.print_text(count, value),
            _ => {
                let error = self.refusal(b"'tostring' must return a string to 'print'")?;
                Ok(Status::Raises(error))
            }
        }
    }
}
