// Prefix expressions: names and parentheses, and the indices and calls behind them (Lua 5.1 manual
// §2.3, §2.5.8).
ghost use Rattle.std.specs.Prelude.{◌≡◌, ◌+◌, ◌<◌, ◌≤◌, ◌∷◌, [], ℕ, Some, IfOk, IfErr, IsTrue, length, true, false};
ghost use Rattle.lua_tree.specs.Attributes.{Counts};
ghost use Rattle.lua_tree.specs.Reading.{Place, a_call, a_paren, args, held, prefix, program, suffixes as suffixes_rule, unfinished};
ghost use Rattle.lua_tree.specs.Spelled.{kind_at};
ghost use Rattle.lua_tree.specs.View.{expr_view};
ghost use Rattle.lua_tree.specs.Begins.{begins_suffix, opens_arguments};
ghost use Rattle.lua_tree.specs.Answer.{Answers, Behind, Fits, IsBase, IsCut, IsHeld, MemberAt, Moves, NameAt, NoMemberAt, NoNameAt, OfWords, Parts, Passes, args_view, counts, expr_tall, exprs_tall, place_of};

use crate::expressions::{expression, expressions, leaf};
use crate::scope::Scope;
use crate::source::{Read, Source, may_nest};
use crate::stop::{Fault, Stop};
use crate::tables::fields;
use crate::{Expr, ExprKind};
use love_base::List;
use lua_token::Kind;

// Where a prefix expression stands.
#[derive(Clone, Copy, Debug, PartialEq, Eq)]
pub(crate) enum Position {
    // It is an operand, of whatever shape.
    Operand,
    // It begins a statement, and has to become a variable or a call.
    Leading,
    // It is a later target of an assignment, and has to become a variable.
    Target,
}

impl Position {
    // Whether a node has to come around parentheses here, since they can't stay as they are.
    fn holds_parentheses(self) -> bool
        ensures { result ≡ unfinished (place_of self) a_paren }
    {
        match self {
            Position::Operand => false,
            Position::Leading | Position::Target => true,
        }
    }

    // Whether a node has to come around a call.
    fn holds_call(self) -> bool
        ensures { result ≡ unfinished (place_of self) a_call }
    {
        match self {
            Position::Operand | Position::Leading => false,
            Position::Target => true,
        }
    }
}

// prefixexp ::= Name {suffix} | '(' exp ')' {suffix}
#[cycle(grammar)]
pub(crate) fn prefix_expression(
    source: &Source,
    at: usize,
    scope: Scope,
    position: Position,
) -> Result<Read<Expr>, Stop>
    requires cut { IsCut source.now }
    requires fits { Fits scope }
    ensures moves { IfOk result (Moves source.now.tokens.now at scope.depth expr_tall) }
    ensures answer { OfWords source.now
        (Answers expr_view (program (prefix (place_of position) (counts scope))) at result) }
{
    let base = base_expression(source, at, scope, position)?;
    suffixes(source, base, scope, position)
}

// Name | '(' exp ')'
#[cycle(grammar)]
fn base_expression(
    source: &Source,
    at: usize,
    scope: Scope,
    position: Position,
) -> Result<Read<Expr>, Stop>
    requires cut { IsCut source.now }
    requires fits { Fits scope }
    ensures moves { IfOk result (Moves source.now.tokens.now at scope.depth expr_tall) }
    ensures answer { OfWords source.now
        (Parts (λ e. program (suffixes_rule (place_of position) (counts scope) (expr_view e)))
        (λ e whole. whole)
        (program (prefix (place_of position) (counts scope))) at result) }
{
    if source.is(at, Kind::OpenParen) {
        parenthesized(source, at, scope, position)
    } else {
        name(source, at, scope)
    }
}

// {suffix}, behind what it belongs to
#[cycle(grammar)]
pub(crate) fn suffixes(
    source: &Source,
    first: Read<Expr>,
    scope: Scope,
    position: Position,
) -> Result<Read<Expr>, Stop>
    requires cut { IsCut source.now }
    requires fits { Fits scope }
    requires behind { Behind source.now.tokens.now scope.depth first }
    ensures moves { IfOk result (Passes source.now.tokens.now first.at scope.depth expr_tall) }
    ensures answer { OfWords source.now
        (Answers expr_view
        (program (suffixes_rule (place_of position) (counts scope) (expr_view first.node)))
        first.at result) }
{
    let mut base = first;
    'suffixes: while goes_on(source, base.at) {
        base = suffix(source, base, scope, position)?;
    }
    Ok(base)
}

// Name
pub(crate) fn name(source: &Source, at: usize, scope: Scope) -> Result<Read<Expr>, Stop>
    requires cut { IsCut source.now }
    requires fits { Fits scope }
    ensures moves { IfOk result (Moves source.now.tokens.now at scope.depth expr_tall) }
    ensures ok { IfOk result (λ read. NameAt source.now at read.node) }
    ensures next { IfOk result (λ read. read.at ≡ at + 1) }
    ensures err { IfErr result (NoNameAt source.now at scope.depth) }
{
    let name = source.name_at(at)?;
    may_nest(scope.depth + 1, at)?;
    Ok(leaf(source, at, ExprKind::Name(name)))
}

// '(' exp ')'
#[cycle(grammar)]
fn parenthesized(
    source: &Source,
    at: usize,
    scope: Scope,
    position: Position,
) -> Result<Read<Expr>, Stop>
    requires cut { IsCut source.now }
    requires fits { Fits scope }
    requires some { at < length source.now.tokens.now }
    requires here { kind_at source.now.tokens.now at ≡ Some Kind.OpenParen }
    ensures moves { IfOk result (Moves source.now.tokens.now at scope.depth expr_tall) }
    ensures answer { OfWords source.now
        (Parts (λ e. program (suffixes_rule (place_of position) (counts scope) (expr_view e)))
        (λ e whole. whole)
        (program (prefix (place_of position) (counts scope))) at result) }
{
    let outer = scope.held(position.holds_parentheses());
    may_nest(outer.depth + 2, at)?;
    let line = source.line_at(at);
    let inner = expression(source, at + 1, outer.deeper(), 0)?;
    let at = source.expect(inner.at, Kind::CloseParen)?;
    let height = 1 + inner.height;
    let inner = Box::new(source.alloc, inner.node)?;
    Ok(Read {
        node: Expr {
            line,
            what: ExprKind::Paren(inner),
        },
        height,
        at,
    })
}

// Whether an index or a call goes on here.
fn goes_on(source: &Source, at: usize) -> bool
    ensures value { result ≡ begins_suffix (kind_at source.now.tokens.now at) }
    ensures within { IsTrue result → at < length source.now.tokens.now }
{
    matches!(
        source.kind_at(at),
        Some(
            Kind::OpenBracket
                | Kind::Dot
                | Kind::Colon
                | Kind::OpenParen
                | Kind::OpenBrace
                | Kind::Str
        )
    )
}

// suffix ::= '[' exp ']' | '.' Name | ':' Name args | args
#[cycle(grammar)]
fn suffix(
    source: &Source,
    base: Read<Expr>,
    scope: Scope,
    position: Position,
) -> Result<Read<Expr>, Stop>
    requires cut { IsCut source.now }
    requires fits { Fits scope }
    requires behind { Behind source.now.tokens.now scope.depth base }
    requires some { base.at < length source.now.tokens.now }
    requires here { begins_suffix (kind_at source.now.tokens.now base.at) ≡ true }
    ensures moves { IfOk result (Moves source.now.tokens.now base.at scope.depth expr_tall) }
    ensures answer { OfWords source.now
        (Parts (λ e. program (suffixes_rule (place_of position) (counts scope) (expr_view e)))
        (λ e whole. whole)
        (program (suffixes_rule (place_of position) (counts scope) (expr_view base.node)))
        base.at result) }
{
    match source.kind_at(base.at) {
        Some(Kind::OpenBracket) => index(source, base, scope),
        Some(Kind::Dot) => member(source, base, scope),
        Some(Kind::Colon) => method_call(source, base, scope.held(position.holds_call())),
        _ => call(source, base, scope.held(position.holds_call())),
    }
}

// '[' exp ']'
#[cycle(grammar)]
fn index(source: &Source, base: Read<Expr>, scope: Scope) -> Result<Read<Expr>, Stop>
    requires cut { IsCut source.now }
    requires fits { Fits scope }
    requires behind { Behind source.now.tokens.now scope.depth base }
    requires some { base.at < length source.now.tokens.now }
    requires here { kind_at source.now.tokens.now base.at ≡ Some Kind.OpenBracket }
    ensures moves { IfOk result (Moves source.now.tokens.now base.at scope.depth expr_tall) }
    ensures answer { (k : Place) → OfWords source.now
        (Parts (λ e. program (suffixes_rule k (counts scope) (expr_view e))) (λ e whole. whole)
        (program (suffixes_rule k (counts scope) (expr_view base.node))) base.at result) }
{
    may_nest(scope.depth + 1 + base.height, base.at)?;
    let line = source.line_at(base.at);
    let key = expression(source, base.at + 1, scope.deeper(), 0)?;
    let at = source.expect(key.at, Kind::CloseBracket)?;
    let height = 1 + base.height.max(key.height);
    let base = Box::new(source.alloc, base.node)?;
    let key = Box::new(source.alloc, key.node)?;
    Ok(Read {
        node: Expr {
            line,
            what: ExprKind::Index(base, key),
        },
        height,
        at,
    })
}

// '.' Name, or ':' Name in the name of a function
pub(crate) fn member(source: &Source, base: Read<Expr>, scope: Scope) -> Result<Read<Expr>, Stop>
    requires cut { IsCut source.now }
    requires fits { Fits scope }
    requires behind { Behind source.now.tokens.now scope.depth base }
    requires some { base.at < length source.now.tokens.now }
    ensures moves { IfOk result (Moves source.now.tokens.now base.at scope.depth expr_tall) }
    ensures ok { IfOk result (λ read. MemberAt source.now base read.node) }
    ensures next { IfOk result (λ read. read.at ≡ base.at + 2) }
    ensures err { IfErr result (NoMemberAt source.now base scope.depth) }
{
    may_nest(scope.depth + 1 + base.height, base.at)?;
    let line = source.line_at(base.at);
    let at = base.at + 1;
    let name = source.name_at(at)?;
    let key = Expr {
        line: source.line_at(at),
        what: ExprKind::Str(name),
    };
    let table = Box::new(source.alloc, base.node)?;
    let key = Box::new(source.alloc, key)?;
    Ok(Read {
        node: Expr {
            line,
            what: ExprKind::Index(table, key),
        },
        height: 1 + base.height,
        at: at + 1,
    })
}

// ':' Name args
#[cycle(grammar)]
fn method_call(source: &Source, object: Read<Expr>, scope: Scope) -> Result<Read<Expr>, Stop>
    requires cut { IsCut source.now }
    requires fits { IsHeld scope }
    requires behind { IsBase source.now.tokens.now object }
    requires some { object.at < length source.now.tokens.now }
    requires here { kind_at source.now.tokens.now object.at ≡ Some Kind.Colon }
    ensures moves { IfOk result (Moves source.now.tokens.now object.at scope.depth expr_tall) }
    ensures answer { (k : Place) (c : Counts) → counts scope ≡ held (unfinished k a_call) c →
        OfWords source.now
        (Parts (λ e. program (suffixes_rule k c (expr_view e))) (λ e whole. whole)
        (program (suffixes_rule k c (expr_view object.node))) object.at result) }
{
    may_nest(scope.depth + 1 + object.height, object.at)?;
    let name = source.name_at(object.at + 1)?;
    let opening = object.at + 2;
    let arguments = arguments(source, opening, scope.deeper())?;
    let height = 1 + object.height.max(arguments.height);
    let object = Box::new(source.alloc, object.node)?;
    Ok(Read {
        node: Expr {
            line: source.line_at(opening),
            what: ExprKind::Method(object, name, arguments.node),
        },
        height,
        at: arguments.at,
    })
}

// args
#[cycle(grammar)]
fn call(source: &Source, callee: Read<Expr>, scope: Scope) -> Result<Read<Expr>, Stop>
    requires cut { IsCut source.now }
    requires fits { IsHeld scope }
    requires behind { IsBase source.now.tokens.now callee }
    requires some { callee.at < length source.now.tokens.now }
    requires here { opens_arguments (kind_at source.now.tokens.now callee.at) ≡ true }
    ensures moves { IfOk result (Moves source.now.tokens.now callee.at scope.depth expr_tall) }
    ensures answer { (k : Place) (c : Counts) → counts scope ≡ held (unfinished k a_call) c →
        OfWords source.now
        (Parts (λ e. program (suffixes_rule k c (expr_view e))) (λ e whole. whole)
        (program (suffixes_rule k c (expr_view callee.node))) callee.at result) }
{
    let opening = callee.at;
    may_nest(scope.depth + 1 + callee.height, opening)?;
    let arguments = arguments(source, opening, scope.deeper())?;
    let height = 1 + callee.height.max(arguments.height);
    let callee = Box::new(source.alloc, callee.node)?;
    Ok(Read {
        node: Expr {
            line: source.line_at(opening),
            what: ExprKind::Call(callee, arguments.node),
        },
        height,
        at: arguments.at,
    })
}

// args ::= '(' [explist] ')' | table | String
#[cycle(grammar)]
fn arguments(source: &Source, at: usize, scope: Scope) -> Result<Read<List<Expr>>, Stop>
    requires cut { IsCut source.now }
    requires fits { Fits scope }
    requires deep { scope.depth + 1 ≤ 200 }
    requires behind { 0 < at }
    ensures moves { IfOk result (Moves source.now.tokens.now at scope.depth exprs_tall) }
    ensures answer { (n : ℕ) → n ≤ 200 → OfWords source.now
        (Answers (args_view source.now at) (program (args n (counts scope))) at result) }
{
    match source.kind_at(at) {
        Some(Kind::OpenParen) => listed(source, at, scope),
        Some(Kind::OpenBrace) => only_table(source, at, scope),
        Some(Kind::Str) => only_string(source, at),
        _ => Err(Stop::At(Fault::Unexpected, at)),
    }
}

// '(' [explist] ')'
#[cycle(grammar)]
fn listed(source: &Source, at: usize, scope: Scope) -> Result<Read<List<Expr>>, Stop>
    requires cut { IsCut source.now }
    requires fits { Fits scope }
    requires behind { 0 < at }
    requires some { at < length source.now.tokens.now }
    requires here { kind_at source.now.tokens.now at ≡ Some Kind.OpenParen }
    ensures moves { IfOk result (Moves source.now.tokens.now at scope.depth exprs_tall) }
    ensures answer { (n : ℕ) → n ≤ 200 → OfWords source.now
        (Answers (args_view source.now at) (program (args n (counts scope))) at result) }
{
    if source.line_at(at - 1) < source.line_at(at) {
        return Err(Stop::At(Fault::AmbiguousCall, at));
    }
    if source.is(at + 1, Kind::CloseParen) {
        return Ok(Read {
            node: List::new(source.alloc),
            height: 0,
            at: at + 2,
        });
    }
    let items = expressions(source, at + 1, scope)?;
    Ok(Read {
        node: items.node,
        height: items.height,
        at: source.expect(items.at, Kind::CloseParen)?,
    })
}

// table, as the one argument
#[cycle(grammar)]
fn only_table(source: &Source, at: usize, scope: Scope) -> Result<Read<List<Expr>>, Stop>
    requires cut { IsCut source.now }
    requires fits { Fits scope }
    requires deep { scope.depth + 1 ≤ 200 }
    requires some { at < length source.now.tokens.now }
    requires here { kind_at source.now.tokens.now at ≡ Some Kind.OpenBrace }
    ensures moves { IfOk result (Moves source.now.tokens.now at scope.depth exprs_tall) }
    ensures answer { (n : ℕ) → n ≤ 200 → OfWords source.now
        (Answers (args_view source.now at) (program (args n (counts scope))) at result) }
{
    let fields = fields(source, at + 1, scope.deeper())?;
    let node = Expr {
        line: source.line_at(at),
        what: ExprKind::Table(fields.node),
    };
    Ok(Read {
        node: only(source, node)?,
        height: 1 + fields.height,
        at: fields.at,
    })
}

// String, as the one argument
fn only_string(source: &Source, at: usize) -> Result<Read<List<Expr>>, Stop>
    requires cut { IsCut source.now }
    requires here { kind_at source.now.tokens.now at ≡ Some Kind.Str }
    ensures moves { IfOk result (Moves source.now.tokens.now at 199 exprs_tall) }
    ensures answer { (n : ℕ) → n ≤ 200 → (c : Counts) → OfWords source.now
        (Answers (args_view source.now at) (program (args n c)) at result) }
{
    let string = leaf(source, at, ExprKind::Str(source.string_at(at)?));
    Ok(Read {
        node: only(source, string.node)?,
        height: 1,
        at: at + 1,
    })
}

// The list of one expression.
fn only(source: &Source, item: Expr) -> Result<List<Expr>, Stop>
    ensures ok { IfOk result (λ items. items ≡ item ∷ []) }
    ensures err { IfErr result (λ stop. stop ≡ Stop.Memory) }
{
    let mut items = Vec::new(source.alloc);
    items.push(item)?;
    Ok(List::from_vec(items))
}
