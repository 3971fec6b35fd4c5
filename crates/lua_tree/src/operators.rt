// The operators and how tight they bind (Lua 5.1 manual §2.5.6).
ghost use Rattle.std.specs.Prelude.{◌≡◌, ◌+◌, ◌<◌, IfSome, None};
ghost use Rattle.lua_tree.specs.Tree.{BinOp as Operator};
ghost use Rattle.lua_tree.specs.Grammar as grammar;
ghost use Rattle.lua_tree.specs.Words.{op as operator};
ghost use Rattle.lua_tree.specs.View.{binary_view};
ghost use Rattle.lua_tree.specs.Spelled.{word_of_kind};

use crate::BinOp;
use lua_token::Kind;

// How tight a unary operator binds.
pub(crate) const UNARY: u32 = 7;

// Levels of binding: a greater one binds tighter.
#[derive(Clone, Copy)]
pub(crate) struct Priority {
    // The operator's own.
    pub level: u32,
    // The least one of an operator in its right operand.
    pub right: u32,
}

// A level whose right operand takes no operator of it.
fn left_associative(level: u32) -> Priority
    requires { level < 100 }
    ensures { result ≡ record { level = level; right = level + 1 } }
{
    Priority {
        level,
        right: level + 1,
    }
}

// The levels of a binary operator, lowest first.
pub(crate) fn priority_of(op: BinOp) -> Priority
    ensures level { result.level ≡ grammar.level (binary_view op) }
    ensures right { result.right ≡ grammar.right_level (binary_view op) }
{
    match op {
        BinOp::Or => left_associative(1),
        BinOp::And => left_associative(2),
        BinOp::Less
        | BinOp::Greater
        | BinOp::LessEqual
        | BinOp::GreaterEqual
        | BinOp::NotEqual
        | BinOp::Equal => left_associative(3),
        BinOp::Concat => Priority { level: 4, right: 4 },
        BinOp::Add | BinOp::Sub => left_associative(5),
        BinOp::Mul | BinOp::Div | BinOp::Mod => left_associative(6),
        BinOp::Pow => Priority {
            level: 8,
            right: UNARY,
        },
    }
}

// binop ::= or | and | '<' | '>' | '<=' | '>=' | '~=' | '==' | '..' | '+' | '-' | '*' | '/' | '%'
//     | '^'
pub(crate) fn binary_operator(kind: Kind) -> Option<BinOp>
    ensures some { IfSome result (λ op. word_of_kind kind ≡ operator (binary_view op)) }
    ensures none { result ≡ None → (o : Operator) → word_of_kind kind ≡ operator o → ⊥ }
{
    match kind {
        Kind::Or => Some(BinOp::Or),
        Kind::And => Some(BinOp::And),
        Kind::Less => Some(BinOp::Less),
        Kind::Greater => Some(BinOp::Greater),
        Kind::LessEqual => Some(BinOp::LessEqual),
        Kind::GreaterEqual => Some(BinOp::GreaterEqual),
        Kind::NotEqual => Some(BinOp::NotEqual),
        Kind::Equal => Some(BinOp::Equal),
        Kind::Concat => Some(BinOp::Concat),
        Kind::Plus => Some(BinOp::Add),
        Kind::Minus => Some(BinOp::Sub),
        Kind::Star => Some(BinOp::Mul),
        Kind::Slash => Some(BinOp::Div),
        Kind::Percent => Some(BinOp::Mod),
        Kind::Caret => Some(BinOp::Pow),
        _ => None,
    }
}
