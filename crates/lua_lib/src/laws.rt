//! Laws of the definitions, each the contract of a function that does nothing.

ghost use Rattle.std.specs.Prelude.{◌≡◌, ◌↔◌, ℕ, ℤ, List, Some};
ghost use Rattle.lua_value.specs.Num.{IsNum};
ghost use Rattle.lua_value.specs.NumberText.{ReadsAs};
ghost use Rattle.lua_tree.specs.Tree.{Bytes};
ghost use Rattle.lua_meaning.specs.Native.{Native};
ghost use Rattle.lua_meaning.specs.Number.{read};
ghost use Rattle.lua_meaning.specs.Fault.{Fault as Error, Place, fault_value};
ghost use Rattle.lua_lib.specs.declared.call.cause.Cause.{Cause};
ghost use Rattle.lua_lib.specs.Causes.{error_of};
ghost use Rattle.lua_lib.specs.Texts.{cause_value};

/// The function by which the definitions read a text as a number gives a number exactly where the
/// text stands for it and it is one of the range (Lua 5.1 manual §2.2.1).
pub fn texts_are_read()
    ensures { (text : List ℕ) (z : ℤ) → (read text ≡ Some z) ↔ (ReadsAs text z × IsNum z) }
{}

/// The value of an error by the definitions is that of its cause: the value that a program gave, or
/// the text that [`Cause::put_placed`](crate::call::Cause::put_placed) puts.
pub fn errors_are_texts()
    ensures { (f : Native) (at : Place) (texts : List Bytes) (cause : Cause) (error : Error)
        → error_of texts cause ≡ Some error
        → fault_value f (Some at) error ≡ cause_value f at texts cause }
{}
