//! Trees as texts, in which a list stands in parentheses, behind the line of its node where that is
//! asked for.
use love_base::{List, Text};
use lua_tree::{Arm, BinOp, Block, Expr, ExprKind, Field, Func, Stat, StatKind, UnOp};
use std::alloc::{AllocError, Global};

#[derive(Drop)]
pub(crate) struct Shown {
    pub bytes: Vec<u8>,
    // Whether the lines of nodes are shown.
    pub lines: bool,
}

fn put(shown: &mut Shown, word: &str) -> Result<(), AllocError> {
    shown.bytes.extend_from_slice(word.as_bytes())
}

// What opens a node.
fn open(shown: &mut Shown, word: &str, line: u32) -> Result<(), AllocError> {
    put(shown, "(")?;
    put(shown, word)?;
    if shown.lines && line < 10 {
        shown.bytes.extend_from_slice(&[b'@', b'0' + line as u8])?;
    }
    Ok(())
}

fn put_text(shown: &mut Shown, text: &Text) -> Result<(), AllocError> {
    put(shown, " ")?;
    shown.bytes.extend_from_slice(text.bytes())
}

fn put_names(shown: &mut Shown, names: &List<Text>) -> Result<(), AllocError> {
    for name in names.as_slice() {
        put_text(shown, name)?;
    }
    Ok(())
}

#[cycle(shown)]
pub(crate) fn put_block(shown: &mut Shown, block: &Block) -> Result<(), AllocError> {
    for stat in block.stats.as_slice() {
        put(shown, " ")?;
        put_stat(shown, stat)?;
    }
    Ok(())
}

#[cycle(shown)]
fn put_stat(shown: &mut Shown, stat: &Stat) -> Result<(), AllocError> {
    let line = stat.line;
    match &stat.what {
        StatKind::Assign(targets, values) => {
            open(shown, "assign", line)?;
            put_exprs(shown, targets.as_slice())?;
            put(shown, " =")?;
            put_exprs(shown, values.as_slice())?;
        }
        StatKind::Local(names, values) => {
            open(shown, "local", line)?;
            put_names(shown, names)?;
            put(shown, " =")?;
            put_exprs(shown, values.as_slice())?;
        }
        StatKind::Call(call) => {
            open(shown, "do", line)?;
            put_expr(shown, call)?;
        }
        StatKind::Do(block) => {
            open(shown, "block", line)?;
            put_block(shown, block)?;
        }
        StatKind::While(test, block) => {
            open(shown, "while", line)?;
            put_expr(shown, test)?;
            put_block(shown, block)?;
        }
        StatKind::Repeat(block, test) => {
            open(shown, "repeat", line)?;
            put_block(shown, block)?;
            put(shown, " until")?;
            put_expr(shown, test)?;
        }
        StatKind::If(arms, last) => {
            open(shown, "if", line)?;
            put_arms(shown, arms.as_slice())?;
            put_else(shown, last)?;
        }
        StatKind::NumFor(name, first, limit, step, block) => {
            open(shown, "for", line)?;
            put_text(shown, name)?;
            put_expr(shown, first)?;
            put_expr(shown, limit)?;
            put_step(shown, step)?;
            put(shown, " do")?;
            put_block(shown, block)?;
        }
        StatKind::GenFor(names, values, block) => {
            open(shown, "for", line)?;
            put_names(shown, names)?;
            put(shown, " in")?;
            put_exprs(shown, values.as_slice())?;
            put(shown, " do")?;
            put_block(shown, block)?;
        }
        StatKind::Function(target, function) => {
            open(shown, "function", line)?;
            put_expr(shown, target)?;
            put_function(shown, function)?;
        }
        StatKind::LocalFunction(name, function) => {
            open(shown, "local", line)?;
            put_text(shown, name)?;
            put_function(shown, function)?;
        }
        StatKind::Return(values) => {
            open(shown, "return", line)?;
            put_exprs(shown, values.as_slice())?;
        }
        StatKind::Break => open(shown, "break", line)?,
    }
    put(shown, ")")
}

#[cycle(shown)]
fn put_arms(shown: &mut Shown, arms: &[Arm]) -> Result<(), AllocError> {
    for arm in arms {
        put_expr(shown, &arm.test)?;
        put(shown, " then")?;
        put_block(shown, &arm.block)?;
    }
    Ok(())
}

#[cycle(shown)]
fn put_else(shown: &mut Shown, last: &Option<Block>) -> Result<(), AllocError> {
    match last {
        None => Ok(()),
        Some(block) => {
            put(shown, " else")?;
            put_block(shown, block)
        }
    }
}

#[cycle(shown)]
fn put_step(shown: &mut Shown, step: &Option<Expr>) -> Result<(), AllocError> {
    match step {
        None => Ok(()),
        Some(step) => put_expr(shown, step),
    }
}

#[cycle(shown)]
fn put_function(shown: &mut Shown, function: &Func) -> Result<(), AllocError> {
    put(shown, " ")?;
    open(shown, "", function.line)?;
    put_names(shown, &function.params)?;
    if function.dots {
        put(shown, " ...")?;
    }
    put(shown, " )")?;
    put_block(shown, &function.body)
}

#[cycle(shown)]
fn put_exprs(shown: &mut Shown, exprs: &[Expr]) -> Result<(), AllocError> {
    for expr in exprs {
        put_expr(shown, expr)?;
    }
    Ok(())
}

#[cycle(shown)]
fn put_expr(shown: &mut Shown, expr: &Expr) -> Result<(), AllocError> {
    let line = expr.line;
    put(shown, " ")?;
    match &expr.what {
        ExprKind::Nil => return put(shown, "nil"),
        ExprKind::True => return put(shown, "true"),
        ExprKind::False => return put(shown, "false"),
        ExprKind::Dots => return put(shown, "..."),
        ExprKind::Number(number) => {
            let mut digits = itoa::Buffer::new();
            return put(shown, number.text(&mut digits));
        }
        ExprKind::Name(name) => return shown.bytes.extend_from_slice(name.bytes()),
        ExprKind::Str(text) => {
            put(shown, "'")?;
            shown.bytes.extend_from_slice(text.bytes())?;
            return put(shown, "'");
        }
        ExprKind::Function(function) => {
            open(shown, "function", line)?;
            put_function(shown, function)?;
        }
        ExprKind::Index(table, key) => {
            open(shown, ".", line)?;
            put_expr(shown, table)?;
            put_expr(shown, key)?;
        }
        ExprKind::Call(callee, arguments) => {
            open(shown, "call", line)?;
            put_expr(shown, callee)?;
            put_exprs(shown, arguments.as_slice())?;
        }
        ExprKind::Method(object, name, arguments) => {
            open(shown, "method", line)?;
            put_expr(shown, object)?;
            put_text(shown, name)?;
            put_exprs(shown, arguments.as_slice())?;
        }
        ExprKind::Table(fields) => {
            open(shown, "table", line)?;
            put_fields(shown, fields.as_slice())?;
        }
        ExprKind::Unary(op, operand) => {
            open(shown, unary(*op), line)?;
            put_expr(shown, operand)?;
        }
        ExprKind::Binary(op, left, right) => {
            open(shown, binary(*op), line)?;
            put_expr(shown, left)?;
            put_expr(shown, right)?;
        }
        ExprKind::Paren(inner) => {
            open(shown, "paren", line)?;
            put_expr(shown, inner)?;
        }
    }
    put(shown, ")")
}

#[cycle(shown)]
fn put_fields(shown: &mut Shown, fields: &[Field]) -> Result<(), AllocError> {
    for field in fields {
        match field {
            Field::Item(value) => put_expr(shown, value)?,
            Field::Keyed(key, value) => {
                put_expr(shown, key)?;
                put(shown, " =")?;
                put_expr(shown, value)?;
            }
        }
    }
    Ok(())
}

fn unary(op: UnOp) -> &'static str {
    match op {
        UnOp::Not => "not",
        UnOp::Length => "#",
        UnOp::Minus => "-",
    }
}

fn binary(op: BinOp) -> &'static str {
    match op {
        BinOp::Or => "or",
        BinOp::And => "and",
        BinOp::Less => "<",
        BinOp::Greater => ">",
        BinOp::LessEqual => "<=",
        BinOp::GreaterEqual => ">=",
        BinOp::NotEqual => "~=",
        BinOp::Equal => "==",
        BinOp::Concat => "..",
        BinOp::Add => "+",
        BinOp::Sub => "-",
        BinOp::Mul => "*",
        BinOp::Div => "/",
        BinOp::Mod => "%",
        BinOp::Pow => "^",
    }
}

// The text of a block.
pub(crate) fn text_of(alloc: Global, block: &Block, lines: bool) -> Result<Vec<u8>, AllocError> {
    let mut shown = Shown {
        bytes: Vec::new(alloc),
        lines,
    };
    put_block(&mut shown, block)?;
    Ok(shown.bytes)
}
