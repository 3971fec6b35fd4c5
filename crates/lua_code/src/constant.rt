use love_base::Text;
use lua_value::Num;

/// A constant of a function's code (Lua 5.1 manual §2.1, §2.2).
#[derive(Debug, Drop)]
pub enum Constant {
    Nil,
    Bool(bool),
    Num(Num),
    Str(Text),
}
