use love_base::{List, Text};
use lua_value::Num;

/// A whole source (Lua 5.1 manual §2.4.1): the body of a function with `...` and without a name.
#[derive(Drop)]
pub struct Chunk {
    /// Its statements.
    pub block: Block,
}

/// Statements, one after the other (Lua 5.1 manual §2.4.2).
#[cycle(tree)]
#[derive(Drop)]
pub struct Block {
    /// The statements in their order. [`StatKind::Return`] and [`StatKind::Break`] stand last.
    pub stats: List<Stat>,
}

/// A statement (Lua 5.1 manual §2.4).
#[cycle(tree)]
#[derive(Drop)]
pub struct Stat {
    /// The line of its first token.
    pub line: u32,
    /// Which statement it is.
    pub what: StatKind,
}

/// Which statement one is, with its parts in the order of the source.
#[cycle(tree)]
#[derive(Drop)]
pub enum StatKind {
    /// `a, b = c, d`: the targets, each a name or an index, and the expressions; both have at least
    /// one (§2.4.3).
    Assign(List<Expr>, List<Expr>),
    /// `local a, b = c, d`, or without expressions (§2.4.7).
    Local(List<Text>, List<Expr>),
    /// A call, whose values are thrown away (§2.4.6).
    Call(Expr),
    /// `do end` (§2.4.2).
    Do(Block),
    /// `while a do end` (§2.4.4).
    While(Expr, Block),
    /// `repeat until a` (§2.4.4).
    Repeat(Block, Expr),
    /// `if a then elseif b then else end`: at least one arm, and what `else` has (§2.4.4).
    If(List<Arm>, Option<Block>),
    /// `for x = a, b, c do end`: the first value, the limit and the step (§2.4.5).
    NumFor(Text, Expr, Expr, Option<Expr>, Block),
    /// `for x, y in a, b do end` (§2.4.5).
    GenFor(List<Text>, List<Expr>, Block),
    /// `function a.b:c() end`: what it is assigned to, here the index of `c` in that of `b` in `a`
    /// (§2.5.9).
    Function(Expr, Func),
    /// `local function f() end` (§2.5.9).
    LocalFunction(Text, Func),
    /// `return a, b` (§2.4.4).
    Return(List<Expr>),
    /// `break` (§2.4.4).
    Break,
}

/// A condition of an `if`, and what runs where it is the first that holds.
#[cycle(tree)]
#[derive(Drop)]
pub struct Arm {
    /// The condition.
    pub test: Expr,
    /// What is behind its `then`.
    pub block: Block,
}

/// An expression (Lua 5.1 manual §2.5).
#[cycle(tree)]
#[derive(Drop)]
pub struct Expr {
    /// The line of its operator; of the token that opens the arguments of a call; of the `.`, `[`
    /// or `:` of an index; else of its first token.
    pub line: u32,
    /// Which expression it is.
    pub what: ExprKind,
}

/// Which expression one is, with its parts in the order of the source.
#[cycle(tree)]
#[derive(Drop)]
pub enum ExprKind {
    /// `nil`
    Nil,
    /// `true`
    True,
    /// `false`
    False,
    /// A number.
    Number(Num),
    /// A string, with the bytes that it stands for.
    Str(Text),
    /// `...`
    Dots,
    /// `function() end` (§2.5.9).
    Function(Func),
    /// A name, of a local or of a global (§2.3).
    Name(Text),
    /// `a[b]`, or `a.b`, whose key is the string `b` (§2.3).
    Index(Box<Expr>, Box<Expr>),
    /// `a(b, c)`, `a"b"` or `a{b}` (§2.5.8).
    Call(Box<Expr>, List<Expr>),
    /// `a:b(c, d)` (§2.5.8).
    Method(Box<Expr>, Text, List<Expr>),
    /// `{a, b = c}` (§2.5.7).
    Table(List<Field>),
    /// A unary operator.
    Unary(UnOp, Box<Expr>),
    /// A binary operator between its operands.
    Binary(BinOp, Box<Expr>, Box<Expr>),
    /// `(a)`, which gives one value (§2.5).
    Paren(Box<Expr>),
}

/// A field of a table (Lua 5.1 manual §2.5.7).
#[cycle(tree)]
#[derive(Drop)]
pub enum Field {
    /// A value, whose key is its place among such fields.
    Item(Expr),
    /// `[a] = b`, or `a = b`, whose key is the string `a`.
    Keyed(Expr, Expr),
}

/// A function's parameters and body (Lua 5.1 manual §2.5.9).
#[cycle(tree)]
#[derive(Drop)]
pub struct Func {
    /// The line of its `function`.
    pub line: u32,
    /// The names of its parameters; `self` is the first of `function a:b() end`.
    pub params: List<Text>,
    /// Whether `...` stands behind them.
    pub dots: bool,
    /// Its statements.
    pub body: Block,
}

/// A unary operator (Lua 5.1 manual §2.5.1, §2.5.3, §2.5.5).
#[derive(Clone, Copy, Debug, PartialEq, Eq)]
pub enum UnOp {
    /// `not`
    Not,
    /// `#`
    Length,
    /// `-`
    Minus,
}

/// A binary operator (Lua 5.1 manual §2.5.1 to §2.5.4).
#[derive(Clone, Copy, Debug, PartialEq, Eq)]
pub enum BinOp {
    /// `or`
    Or,
    /// `and`
    And,
    /// `<`
    Less,
    /// `>`
    Greater,
    /// `<=`
    LessEqual,
    /// `>=`
    GreaterEqual,
    /// `~=`
    NotEqual,
    /// `==`
    Equal,
    /// `..`
    Concat,
    /// `+`
    Add,
    /// `-`
    Sub,
    /// `*`
    Mul,
    /// `/`
    Div,
    /// `%`
    Mod,
    /// `^`
    Pow,
}
