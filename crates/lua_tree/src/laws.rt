//! Laws of the definitions, each the contract of a function that does nothing.

ghost use Rattle.lua_tree.specs.Laws.{OneChunk, ReadingIsExact, OneAnswer};
ghost use Rattle.lua_tree.specs.Rows.{Sums, Parens, Locals, Blocks, Arms300, Ends, Breaks};
ghost use Rattle.lua_tree.specs.FaultRows.{BreakAlone, NameBehindReturn, DotsInside, CallOnNextLine};
ghost use Rattle.lua_tree.specs.Precedence.{PowerOfMinus, MinusOfPower, ConcatToTheRight, MinusToTheLeft, NotBindsTighter};

/// A list of tokens spells at most one chunk.
pub fn one_chunk()
    ensures { OneChunk }
{}

/// What reading by descent answers is exact, whatever the limits: the chunk that the tokens spell,
/// or their first fault.
pub fn reading_is_exact()
    ensures { ReadingIsExact }
{}

/// At most one answer for a list of tokens is exact.
pub fn one_answer()
    ensures { OneAnswer }
{}

/// How operators bind (Lua 5.1 manual §2.5.6), on rows: each text spells this one chunk.
pub fn precedence()
    ensures power_of_minus { PowerOfMinus }
    ensures minus_of_power { MinusOfPower }
    ensures concat_to_the_right { ConcatToTheRight }
    ensures minus_to_the_left { MinusToTheLeft }
    ensures not_binds_tighter { NotBindsTighter }
{}

/// What is counted, on rows at the limits of a source.
pub fn counted()
    ensures sums { Sums }
    ensures parens { Parens }
    ensures local_names { Locals }
    ensures blocks { Blocks }
    ensures arms { Arms300 }
    ensures ends { Ends }
    ensures breaks { Breaks }
{}

/// The exact answers for short sources.
pub fn faults()
    ensures break_alone { BreakAlone }
    ensures name_behind_return { NameBehindReturn }
    ensures dots_inside { DotsInside }
    ensures call_on_next_line { CallOnNextLine }
{}
