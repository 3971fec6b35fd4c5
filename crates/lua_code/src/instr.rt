//! Instructions of a register machine, and where each can call or fail.

use lua_tree::{BinOp, UnOp};

/// An instruction on the slots of a frame. Slots are counted from the frame's first one, cells from
/// the running function's first one, constants and functions by their numbers.
///
/// An operand that is a constant has a variant of its own, so that no operand is tested when it is
/// read.
#[derive(Clone, Copy, Debug)]
pub enum Instr {
    /// A slot gets what stands in another one.
    Move {
        to: u32,
        from: u32,
    },
    /// A slot gets a constant.
    Const {
        to: u32,
        constant: u32,
    },

    /// A slot gets what a captured local's cell holds.
    GetCell {
        to: u32,
        cell: u32,
    },
    /// A cell gets what stands in a slot.
    SetCell {
        cell: u32,
        from: u32,
    },
    /// A cell gets a constant.
    SetCellConst {
        cell: u32,
        constant: u32,
    },
    /// A captured local gets a new cell, with what stands in a slot.
    NewCell {
        cell: u32,
        from: u32,
    },
    /// A slot gets a new function, with the cells that its prototype names.
    Close {
        to: u32,
        proto: u32,
    },

    /// A slot gets a new table.
    NewTable {
        to: u32,
    },
    /// The table in a slot gets its item of a number.
    SetItem {
        table: u32,
        number: u32,
        from: u32,
    },
    /// The same, where the item is a constant.
    SetItemConst {
        table: u32,
        number: u32,
        constant: u32,
    },
    /// The table in a slot gets the tail as its items from a number on.
    SetRest {
        table: u32,
        number: u32,
    },
    /// The new table in a slot gets a field, without a handler.
    SetNew {
        table: u32,
        key: u32,
        from: u32,
    },
    /// The same, where the value is a constant.
    SetNewConst {
        table: u32,
        key: u32,
        constant: u32,
    },
    /// The same, where the key is a constant.
    SetNewNamed {
        table: u32,
        name: u32,
        from: u32,
    },
    /// The same, where both are constants.
    SetNewNamedConst {
        table: u32,
        name: u32,
        constant: u32,
    },

    /// A slot gets the first extra argument.
    FirstExtra {
        to: u32,
    },
    /// The tail gets the extra arguments.
    AllExtra,

    /// A unary operator.
    Unary {
        op: UnOp,
        to: u32,
        from: u32,
    },
    /// A binary operator, but `and` and `or`, which are jumps.
    Binary {
        op: BinOp,
        to: u32,
        left: u32,
        right: u32,
    },
    /// The same, where the right operand is a constant.
    BinaryConst {
        op: BinOp,
        to: u32,
        left: u32,
        constant: u32,
    },

    /// A slot gets a field of what stands in another one.
    GetField {
        to: u32,
        base: u32,
        key: u32,
    },
    /// The same, where the key is a constant.
    GetNamed {
        to: u32,
        base: u32,
        name: u32,
    },
    /// A slot gets a field of the globals, whose key is a constant.
    GetGlobal {
        to: u32,
        name: u32,
    },
    /// A field of what stands in a slot is set.
    SetField {
        base: u32,
        key: u32,
        from: u32,
    },
    /// The same, where the value is a constant.
    SetFieldConst {
        base: u32,
        key: u32,
        constant: u32,
    },
    /// The same, where the key is a constant.
    SetNamed {
        base: u32,
        name: u32,
        from: u32,
    },
    /// The same, where both are constants.
    SetNamedConst {
        base: u32,
        name: u32,
        constant: u32,
    },
    /// A field of the globals is set, whose key is a constant.
    SetGlobal {
        name: u32,
        from: u32,
    },
    /// The same, where the value is a constant too.
    SetGlobalConst {
        name: u32,
        constant: u32,
    },

    /// Calls what stands in a slot, on the slots behind it and, where that is wanted, the tail. The
    /// first result goes to a slot.
    Invoke {
        to: u32,
        at: u32,
        count: u32,
        tailed: bool,
    },
    /// The same; all results go to the tail.
    InvokeAll {
        at: u32,
        count: u32,
        tailed: bool,
    },
    /// Slots get values of the tail, or none of it, and nil where there are no more.
    Spread {
        from: u32,
        count: u32,
        tailed: bool,
    },

    /// Takes a tick.
    Tick,
    /// Jumps on, over so many instructions.
    Skip {
        count: u32,
    },
    /// Jumps on where a slot is true.
    SkipIf {
        from: u32,
        count: u32,
    },
    /// Jumps on where a slot is false or nil.
    SkipUnless {
        from: u32,
        count: u32,
    },
    /// Takes a tick and jumps back where a slot is true.
    BackIf {
        from: u32,
        count: u32,
    },
    /// Takes a tick and jumps back where a slot is false or nil.
    BackUnless {
        from: u32,
        count: u32,
    },
    /// The numbers of a numeric loop are tested, and its first turn begins or is jumped over.
    ForBegin {
        at: u32,
        count: u32,
    },
    /// The next turn of a numeric loop begins, or none.
    ForNext {
        at: u32,
        count: u32,
    },
    /// The next turn of a generic loop begins, or none.
    EachNext {
        at: u32,
        count: u32,
    },

    /// The function ends; its results are some slots and, where that is wanted, the tail.
    Leave {
        from: u32,
        count: u32,
        tailed: bool,
    },
}

/// What stands beside an instruction: its line in the source, the slot from which on nothing is
/// needed there, and how many cells of the running function there are.
///
/// Each instruction has one, also where it can't call or fail: [`Site::cells`] is the height of the
/// cells before it.
#[derive(Clone, Copy, Debug, PartialEq, Eq)]
pub struct Site {
    /// The line, from 1 on.
    pub line: u32,
    /// The first slot that isn't needed.
    pub above: u32,
    /// How many cells there are before the instruction.
    pub cells: u32,
}
