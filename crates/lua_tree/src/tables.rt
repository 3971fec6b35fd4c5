// Table constructors (Lua 5.1 manual §2.5.7).
ghost use Rattle.std.specs.Prelude.{◌≡◌, ◌+◌, ◌<◌, ◌≤◌, Some, IfOk, length};
ghost use Rattle.lua_tree.specs.Attributes.{Counts};
ghost use Rattle.lua_tree.specs.Reading.{fields as fields_rule, first as first_rule, more_fields, program};
ghost use Rattle.lua_tree.specs.Spelled.{kind_at};
ghost use Rattle.lua_tree.specs.View.{expr_view, field_view, fields_view};
ghost use Rattle.lua_tree.specs.Begins.{FieldEnd};
ghost use Rattle.lua_tree.specs.Answer.{Answers, Fits, IsCut, Moves, OfWords, Parts, counts, expr_tall, field_tall, fields_tall};

use crate::expressions::{expression, operations};
use crate::scope::Scope;
use crate::source::{Read, Source, may_nest};
use crate::stop::Stop;
use crate::suffixes::{Position, name, suffixes};
use crate::{Expr, ExprKind, Field};
use love_base::List;
use lua_token::Kind;

// table ::= '{' fields
#[cycle(grammar)]
pub(crate) fn table(source: &Source, at: usize, scope: Scope) -> Result<Read<Expr>, Stop>
    requires cut { IsCut source.now }
    requires fits { Fits scope }
    requires some { at < length source.now.tokens.now }
    requires here { kind_at source.now.tokens.now at ≡ Some Kind.OpenBrace }
    ensures moves { IfOk result (Moves source.now.tokens.now at scope.depth expr_tall) }
    ensures answer { OfWords source.now
        (Answers expr_view (program (first_rule (counts scope))) at result) }
{
    may_nest(scope.depth + 1, at)?;
    let fields = fields(source, at + 1, scope.deeper())?;
    Ok(Read {
        node: Expr {
            line: source.line_at(at),
            what: ExprKind::Table(fields.node),
        },
        height: 1 + fields.height,
        at: fields.at,
    })
}

// fields ::= [field {(',' | ';') field} [',' | ';']] '}'
#[cycle(grammar)]
pub(crate) fn fields(source: &Source, at: usize, scope: Scope) -> Result<Read<List<Field>>, Stop>
    requires cut { IsCut source.now }
    requires fits { Fits scope }
    requires within { at ≤ length source.now.tokens.now }
    ensures moves { IfOk result (Moves source.now.tokens.now at scope.depth fields_tall) }
    ensures answer { OfWords source.now
        (Answers fields_view (program (fields_rule (counts scope))) at result) }
{
    let mut fields = Vec::new(source.alloc);
    let mut height = 0;
    let mut end = at;
    'fields: while !source.is(end, Kind::CloseBrace) {
        let read = field(source, end, scope)?;
        fields.push(read.node)?;
        height = height.max(read.height);
        end = behind_field(source, read.at)?;
    }
    Ok(Read {
        node: List::from_vec(fields),
        height,
        at: end + 1,
    })
}

// The place behind a field's ',' or ';', or that of the '}' where there is none.
fn behind_field(source: &Source, at: usize) -> Result<usize, Stop>
    ensures forth { IfOk result (λ next. at ≤ next) }
    ensures within { IfOk result (λ next. next ≤ length source.now.tokens.now) }
    ensures answer { (c : Counts) → OfWords source.now (FieldEnd source.now c at result) }
{
    if source.is(at, Kind::Comma) || source.is(at, Kind::Semicolon) {
        return Ok(at + 1);
    }
    source.expect(at, Kind::CloseBrace)?;
    Ok(at)
}

// field ::= '[' exp ']' '=' exp | Name '=' exp | exp
#[cycle(grammar)]
fn field(source: &Source, at: usize, scope: Scope) -> Result<Read<Field>, Stop>
    requires cut { IsCut source.now }
    requires fits { Fits scope }
    requires here { (kind_at source.now.tokens.now at ≡ Some Kind.CloseBrace) → ⊥ }
    ensures moves { IfOk result (Moves source.now.tokens.now at scope.depth field_tall) }
    ensures answer { OfWords source.now
        (Parts (λ field. program (more_fields (counts scope))) (λ field rest. field_view field rest)
        (program (fields_rule (counts scope))) at result) }
{
    match source.kind_at(at) {
        Some(Kind::OpenBracket) => keyed_field(source, at, scope),
        Some(Kind::Name) => name_field(source, at, scope),
        _ => Ok(item(expression(source, at, scope, 0)?)),
    }
}

// '[' exp ']' '=' exp
#[cycle(grammar)]
fn keyed_field(source: &Source, at: usize, scope: Scope) -> Result<Read<Field>, Stop>
    requires cut { IsCut source.now }
    requires fits { Fits scope }
    requires some { at < length source.now.tokens.now }
    requires here { kind_at source.now.tokens.now at ≡ Some Kind.OpenBracket }
    ensures moves { IfOk result (Moves source.now.tokens.now at scope.depth field_tall) }
    ensures answer { OfWords source.now
        (Parts (λ field. program (more_fields (counts scope))) (λ field rest. field_view field rest)
        (program (fields_rule (counts scope))) at result) }
{
    may_nest(scope.depth + 1, at)?;
    let key = expression(source, at + 1, scope, 0)?;
    let at = source.expect(key.at, Kind::CloseBracket)?;
    let at = source.expect(at, Kind::Assign)?;
    let value = expression(source, at, scope, 0)?;
    Ok(Read {
        node: Field::Keyed(key.node, value.node),
        height: key.height.max(value.height),
        at: value.at,
    })
}

// Name '=' exp, or an expression that begins with a name
#[cycle(grammar)]
fn name_field(source: &Source, at: usize, scope: Scope) -> Result<Read<Field>, Stop>
    requires cut { IsCut source.now }
    requires fits { Fits scope }
    requires some { at < length source.now.tokens.now }
    requires here { kind_at source.now.tokens.now at ≡ Some Kind.Name }
    ensures moves { IfOk result (Moves source.now.tokens.now at scope.depth field_tall) }
    ensures answer { OfWords source.now
        (Parts (λ field. program (more_fields (counts scope))) (λ field rest. field_view field rest)
        (program (fields_rule (counts scope))) at result) }
{
    if source.is(at + 1, Kind::Assign) {
        return named_field(source, at, scope);
    }
    let base = name(source, at, scope)?;
    let left = suffixes(source, base, scope, Position::Operand)?;
    Ok(item(operations(source, left, scope, 0)?))
}

// Name '=' exp
#[cycle(grammar)]
fn named_field(source: &Source, at: usize, scope: Scope) -> Result<Read<Field>, Stop>
    requires cut { IsCut source.now }
    requires fits { Fits scope }
    requires some { at < length source.now.tokens.now }
    requires next { at + 1 < length source.now.tokens.now }
    requires assign { kind_at source.now.tokens.now (at + 1) ≡ Some Kind.Assign }
    requires here { kind_at source.now.tokens.now at ≡ Some Kind.Name }
    ensures moves { IfOk result (Moves source.now.tokens.now at scope.depth field_tall) }
    ensures answer { OfWords source.now
        (Parts (λ field. program (more_fields (counts scope))) (λ field rest. field_view field rest)
        (program (fields_rule (counts scope))) at result) }
{
    may_nest(scope.depth + 1, at)?;
    let key = Expr {
        line: source.line_at(at),
        what: ExprKind::Str(source.name_at(at)?),
    };
    let value = expression(source, at + 2, scope, 0)?;
    Ok(Read {
        node: Field::Keyed(key, value.node),
        height: value.height.max(1),
        at: value.at,
    })
}

// A field of a value alone.
fn item(value: Read<Expr>) -> Read<Field>
    ensures node { result.node ≡ Field.Item value.node }
    ensures at { result.at ≡ value.at }
    ensures height { result.height ≡ value.height }
{
    Read {
        node: Field::Item(value.node),
        height: value.height,
        at: value.at,
    }
}
